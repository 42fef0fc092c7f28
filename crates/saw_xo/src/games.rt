//! The games that are kept at an address, read from text and written.

ghost use Rattle.std.specs.Prelude.{◌≡◌, ◌==◌, ◌++◌, ◌∷◌, [], length, map, OnOk, IfOk, Some, codes, option_map, if◌then◌else◌};
ghost use Rattle.saw_xo.specs.Games.{board_in, entries_in, entry_in, entry_text, game_by, games_by, games_of, kept_bytes, mark_code, named, standing_in};
ghost use Rattle.saw_xo.specs.Maps.{seen};
ghost use Rattle.saw_xo.specs.Texts.{joined};

use crate::game::{Board, Game, board_in, mark_code, standing_in, standing_text};
use crate::parts::{parts_of, text_in};
use saw_wire::{Bytes, Text};
use std::alloc::{AllocError, Global};
use std::collections::BTreeMap;

/// Games by their names.
pub(crate) type Games = BTreeMap<Text, Game>;

/// The games that bytes say. No bytes say no games.
#[tactic(auto, unfolding(crate::specs::Games::games_of))]
pub(crate) fn read_games(alloc: Global, bytes: &[u8]) -> Result<Option<Games>, AllocError>
    ensures { IfOk result (λ read. option_map seen read ≡ games_of bytes.now) }
{
    if bytes.is_empty() {
        return Ok(Some(BTreeMap::new(alloc)));
    }
    match text_in(bytes) {
        Some(text) => games_in(alloc, text),
        None => Ok(None),
    }
}

fn games_in(alloc: Global, text: &str) -> Result<Option<Games>, AllocError>
    ensures { IfOk result (λ read. option_map seen read ≡ games_by (entries_in text.now)) }
{
    match entries_in(alloc, text)? {
        Some(entries) => games_by(alloc, entries),
        None => Ok(None),
    }
}

fn entries_in(alloc: Global, text: &str) -> Result<Option<Vec<(Text, Game)>>, AllocError>
    ensures { IfOk result (λ read. option_map (λ entries. entries.items) read ≡ entries_in text.now) }
{
    let parts = parts_of(alloc, '|', text)?;
    let mut entries = Vec::new(alloc);
    for part in &parts {
        let Some(entry) = entry_in(alloc, part)? else {
            return Ok(None);
        };
        entries.push(entry)?;
    }
    Ok(Some(entries))
}

fn entry_in(alloc: Global, text: &str) -> Result<Option<(Text, Game)>, AllocError>
    ensures { IfOk result (λ read. read ≡ entry_in text.now) }
{
    let parts = parts_of(alloc, ',', text)?;
    match parts.as_slice() {
        [name, board, standing, first_key, second_key] => {
            let game = game_by(alloc, board, standing, first_key, second_key)?;
            named(alloc, name, game)
        }
        _ => Ok(None),
    }
}

fn game_by(
    alloc: Global,
    board: &str,
    standing: &str,
    first_key: &str,
    second_key: &str,
) -> Result<Option<Game>, AllocError>
    ensures { IfOk result
        (λ read. read ≡ game_by (board_in board.now)
        (standing_in standing.now) first_key.now second_key.now) }
{
    let Some(board) = board_in(board) else {
        return Ok(None);
    };
    let Some(standing) = standing_in(standing) else {
        return Ok(None);
    };
    let first_key = Text::from_str(alloc, first_key)?;
    let second_key = Text::from_str(alloc, second_key)?;
    Ok(Some(Game {
        board,
        standing,
        first_key,
        second_key,
    }))
}

fn named(alloc: Global, name: &str, game: Option<Game>) -> Result<Option<(Text, Game)>, AllocError>
    ensures { IfOk result (λ read. read ≡ named name.now game) }
{
    let Some(game) = game else {
        return Ok(None);
    };
    if name.is_empty() {
        return Ok(None);
    }
    Ok(Some((Text::from_str(alloc, name)?, game)))
}

fn games_by(alloc: Global, entries: Vec<(Text, Game)>) -> Result<Option<Games>, AllocError>
    ensures { IfOk result (λ read. option_map seen read ≡ games_by (Some entries.items)) }
{
    let mut games = BTreeMap::new(alloc);
    for (name, game) in entries {
        if games.contains_key(&name) {
            return Ok(None);
        }
        games.insert(name, game)?;
    }
    Ok(Some(games))
}

/// The bytes that are kept for games.
#[tactic(auto, unfolding(crate::specs::Games::kept_bytes))]
pub(crate) fn kept_bytes(alloc: Global, games: &Games) -> Result<Bytes, AllocError>
    ensures { IfOk result (λ bytes. bytes ≡ kept_bytes (seen games.now)) }
{
    let mut out = Vec::new(alloc);
    for (name, game) in games {
        put_next(&mut out, name, game)?;
    }
    Ok(Bytes::from_vec(out))
}

fn put_next(out: &mut Vec<u8>, name: &Text, game: &Game) -> Result<(), AllocError>
    ensures { OnOk result (out.new.items ≡ joined out.old.items (entry_text (name.now, game.now))) }
{
    put_bar(out)?;
    put_entry(out, name, game)
}

fn put_bar(out: &mut Vec<u8>) -> Result<(), AllocError>
    ensures { OnOk result
        (out.new.items ≡ (if length out.old.items == 0 then [] else out.old.items ++ 124 ∷ [])) }
{
    if !out.as_slice().is_empty() {
        out.push(b'|')?;
    }
    Ok(())
}

fn put_entry(out: &mut Vec<u8>, name: &Text, game: &Game) -> Result<(), AllocError>
    ensures { OnOk result (out.new.items ≡ out.old.items ++ entry_text (name.now, game.now)) }
{
    out.extend_from_slice(name.as_str().as_bytes())?;
    put_board(out, &game.board)?;
    put_part(out, standing_text(game.standing))?;
    put_part(out, game.first_key.as_str())?;
    put_part(out, game.second_key.as_str())?;
    Ok(())
}

fn put_part(out: &mut Vec<u8>, part: &str) -> Result<(), AllocError>
    ensures { OnOk result (out.new.items ≡ out.old.items ++ codes "," ++ part.now) }
{
    out.push(b',')?;
    out.extend_from_slice(part.as_bytes())?;
    Ok(())
}

fn put_board(out: &mut Vec<u8>, board: &Board) -> Result<(), AllocError>
    ensures { OnOk result (out.new.items ≡ out.old.items ++ codes "," ++ map mark_code board.now) }
{
    out.push(b',')?;
    for mark in board {
        out.push(mark_code(*mark))?;
    }
    Ok(())
}
