//! What a payload makes of the games.

ghost use Rattle.std.specs.Prelude.{◌≡◌, ◌||◌, [], IfOk, Some, if◌then◌else◌, slice_set};
ghost use Rattle.std.specs.List.{list_all, list_any};
ghost use Rattle.std.specs.Str.{bytes_eq};
ghost use Rattle.saw_xo.specs.Changes.{created, deleted, with_taken};
ghost use Rattle.saw_xo.specs.Maps.{seen, seen_or_number};
ghost use Rattle.saw_xo.specs.Moves.{after_move, changed, has_line, is_free, is_mark, key_of, mark_at, mark_of, mover, new_game, other_next, standing_after, taken, taken_by};

use crate::game::{Board, Game, Mark, Player, Standing};
use crate::games::Games;
use crate::payload::{Act, Payload};
use saw_wire::Text;
use std::alloc::{AllocError, Global};

/// A game that is created is there already.
const PRESENT: u16 = 207;

/// There is no such game to take or to delete.
const ABSENT: u16 = 208;

/// The game is over.
const OVER: u16 = 209;

/// The signer is not the player to move.
const NOT_THE_MOVER: u16 = 210;

/// The space is taken.
const NOT_FREE: u16 = 211;

/// The rows, the columns and the diagonals, by places counted from 0.
const LINES: [[usize; 3]; 8] = [
    [0, 1, 2],
    [3, 4, 5],
    [6, 7, 8],
    [0, 3, 6],
    [1, 4, 7],
    [2, 5, 8],
    [0, 4, 8],
    [2, 4, 6],
];

fn is_mark(mark: Mark, other: Mark) -> bool
    ensures { result ≡ is_mark mark other }
{
    mark == other
}

fn mark_at(board: &[Mark], place: usize) -> Mark
    ensures { result ≡ mark_at board.now place }
{
    match board.get(place) {
        Some(mark) => *mark,
        None => Mark::Empty,
    }
}

fn is_full(mark: Mark, board: &[Mark], line: &[usize]) -> bool
    ensures { result ≡ list_all (λ place. is_mark mark (mark_at board.now place)) line.now }
{
    line.iter()
        .all(|place| is_mark(mark, mark_at(board, *place)))
}

fn has_line(mark: Mark, board: &[Mark]) -> bool
    ensures { result ≡ has_line mark board.now }
{
    LINES.iter().any(|line| is_full(mark, board, line))
}

fn has_space(board: &[Mark]) -> bool
    ensures { result ≡ list_any (is_mark Mark.Empty) board.now }
{
    board.iter().any(|mark| is_mark(Mark::Empty, *mark))
}

fn mover(standing: Standing) -> Option<Player>
    ensures { result ≡ mover standing }
{
    match standing {
        Standing::FirstNext => Some(Player::First),
        Standing::SecondNext => Some(Player::Second),
        Standing::FirstWon => None,
        Standing::SecondWon => None,
        Standing::Tie => None,
    }
}

fn mark_of(player: Player) -> Mark
    ensures { result ≡ mark_of player }
{
    match player {
        Player::First => Mark::X,
        Player::Second => Mark::O,
    }
}

fn key_of(player: Player, game: &Game) -> &str
    ensures { result.now ≡ key_of player game.now }
{
    match player {
        Player::First => game.first_key.as_str(),
        Player::Second => game.second_key.as_str(),
    }
}

fn other_next(player: Player) -> Standing
    ensures { result ≡ other_next player }
{
    match player {
        Player::First => Standing::SecondNext,
        Player::Second => Standing::FirstNext,
    }
}

fn standing_after(player: Player, board: &[Mark]) -> Standing
    ensures { result ≡ standing_after player board.now }
{
    if has_line(Mark::X, board) {
        return Standing::FirstWon;
    }
    if has_line(Mark::O, board) {
        return Standing::SecondWon;
    }
    if has_space(board) {
        return other_next(player);
    }
    Standing::Tie
}

fn new_game(alloc: Global) -> Game
    ensures { result ≡ new_game }
{
    Game {
        board: [Mark::Empty; 9],
        standing: Standing::FirstNext,
        first_key: Text::new(alloc),
        second_key: Text::new(alloc),
    }
}

fn is_free(key: &str) -> bool
    ensures { result ≡ is_free key.now }
{
    key.is_empty()
}

fn with_mark(mut board: Board, place: usize, mark: Mark) -> Board
    ensures { result ≡ slice_set board place mark }
{
    if place < board.len() {
        board[place] = mark;
    }
    board
}

fn first_key_after<'a>(signer: &'a str, game: &'a Game) -> &'a str
    ensures { result.now ≡ (if is_free game.now.first_key then signer.now else game.now.first_key) }
{
    if is_free(game.first_key.as_str()) {
        return signer;
    }
    game.first_key.as_str()
}

fn second_key_after<'a>(signer: &'a str, game: &'a Game) -> &'a str
    ensures { result.now ≡
        (if is_free game.now.first_key then game.now.second_key else if is_free game.now.second_key then
        signer.now else game.now.second_key) }
{
    if is_free(game.first_key.as_str()) {
        return game.second_key.as_str();
    }
    if is_free(game.second_key.as_str()) {
        return signer;
    }
    game.second_key.as_str()
}

fn after_move(
    alloc: Global,
    signer: &str,
    player: Player,
    place: u8,
    game: &Game,
) -> Result<Game, AllocError>
    ensures { IfOk result (λ made. made ≡ after_move signer.now player place game.now) }
{
    let board = with_mark(game.board, usize::from(place), mark_of(player));
    let standing = standing_after(player, &board);
    let first_key = Text::from_str(alloc, first_key_after(signer, game))?;
    let second_key = Text::from_str(alloc, second_key_after(signer, game))?;
    Ok(Game {
        board,
        standing,
        first_key,
        second_key,
    })
}

fn may_move(signer: &str, player: Player, game: &Game) -> bool
    ensures { result ≡ (is_free (key_of player game.now) || bytes_eq (key_of player game.now) signer.now) }
{
    let key = key_of(player, game);
    is_free(key) || key == signer
}

fn is_open(place: u8, game: &Game) -> bool
    ensures { result ≡ is_mark Mark.Empty (mark_at game.now.board place) }
{
    is_mark(Mark::Empty, mark_at(&game.board, usize::from(place)))
}

fn taken_by(
    alloc: Global,
    signer: &str,
    place: u8,
    game: &Game,
    player: Player,
) -> Result<Result<Game, u16>, AllocError>
    ensures { IfOk result (λ made. made ≡ taken_by signer.now place game.now (Some player)) }
{
    if !may_move(signer, player, game) {
        return Ok(Err(NOT_THE_MOVER));
    }
    if !is_open(place, game) {
        return Ok(Err(NOT_FREE));
    }
    let game = after_move(alloc, signer, player, place, game)?;
    Ok(Ok(game))
}

#[tactic(auto, unfolding(crate::specs::Moves::taken))]
fn taken(
    alloc: Global,
    signer: &str,
    place: u8,
    game: &Game,
) -> Result<Result<Game, u16>, AllocError>
    ensures { IfOk result (λ made. made ≡ taken signer.now place game.now) }
{
    match mover(game.standing) {
        Some(player) => taken_by(alloc, signer, place, game, player),
        None => Ok(Err(OVER)),
    }
}

/// What a payload of a signer makes of the games, or the number of the check that fails.
#[tactic(auto, unfolding(crate::specs::Moves::changed))]
pub(crate) fn changed(
    alloc: Global,
    signer: &str,
    payload: Payload,
    games: Games,
) -> Result<Result<Games, u16>, AllocError>
    ensures { IfOk result (λ made. seen_or_number made ≡ changed signer.now payload (seen games)) }
{
    match payload.act {
        Act::Create => created(alloc, payload.name, games),
        Act::Take { place } => with_taken(alloc, signer, place, payload.name, games),
        Act::Delete => Ok(deleted(payload.name, games)),
    }
}

fn created(alloc: Global, name: Text, mut games: Games) -> Result<Result<Games, u16>, AllocError>
    ensures { IfOk result (λ made. seen_or_number made ≡ created (seen games) name) }
{
    if games.contains_key(&name) {
        return Ok(Err(PRESENT));
    }
    games.insert(name, new_game(alloc))?;
    Ok(Ok(games))
}

fn with_taken(
    alloc: Global,
    signer: &str,
    place: u8,
    name: Text,
    mut games: Games,
) -> Result<Result<Games, u16>, AllocError>
    ensures { IfOk result (λ made. seen_or_number made ≡ with_taken signer.now place (seen games) name) }
{
    let Some(game) = games.get(&name) else {
        return Ok(Err(ABSENT));
    };
    match taken(alloc, signer, place, game)? {
        Ok(game) => {
            games.insert(name, game)?;
            Ok(Ok(games))
        }
        Err(number) => Ok(Err(number)),
    }
}

fn deleted(name: Text, mut games: Games) -> Result<Games, u16>
    ensures { seen_or_number result ≡ deleted (seen games) name }
{
    match games.remove(&name) {
        Some(_) => Ok(games),
        None => Err(ABSENT),
    }
}
