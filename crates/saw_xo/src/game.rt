//! A game, and its marks and standing as text.

ghost use Rattle.std.specs.Prelude.{◌≡◌};
ghost use Rattle.saw_xo.specs.Games.{board_in, mark_code, mark_in, standing_in, standing_text};

use saw_wire::Text;

/// What stands on a space of the board.
#[derive(Clone, Copy, Debug, PartialEq, Eq)]
pub(crate) enum Mark {
    Empty,
    X,
    O,
}

/// How a game stands.
#[derive(Clone, Copy, Debug, PartialEq, Eq)]
pub(crate) enum Standing {
    FirstNext,
    SecondNext,
    FirstWon,
    SecondWon,
    Tie,
}

/// A player: the first one has the mark `X`.
#[derive(Clone, Copy, Debug, PartialEq, Eq)]
pub(crate) enum Player {
    First,
    Second,
}

/// The marks of a board, row by row.
pub(crate) type Board = [Mark; 9];

/// A game. A key is empty until its player has moved.
pub(crate) struct Game {
    pub(crate) board: Board,
    pub(crate) standing: Standing,
    pub(crate) first_key: Text,
    pub(crate) second_key: Text,
}

// One step of a proof wherever one ends.
impl Drop for Game {
    fn drop(self) {
        let Game {
            board: _,
            standing: _,
            first_key: _first_key,
            second_key: _second_key,
        } = self;
    }
}

/// A mark as it is written.
pub(crate) fn mark_code(mark: Mark) -> u8
    ensures { result ≡ mark_code mark }
{
    match mark {
        Mark::Empty => b'-',
        Mark::X => b'X',
        Mark::O => b'O',
    }
}

/// The mark that is written so.
pub(crate) fn mark_in(code: u8) -> Option<Mark>
    ensures { result ≡ mark_in code }
{
    match code {
        b'-' => Some(Mark::Empty),
        b'X' => Some(Mark::X),
        b'O' => Some(Mark::O),
        _ => None,
    }
}

/// A standing as it is written.
pub(crate) fn standing_text(standing: Standing) -> &'static str
    ensures { result.now ≡ standing_text standing }
{
    match standing {
        Standing::FirstNext => "P1-NEXT",
        Standing::SecondNext => "P2-NEXT",
        Standing::FirstWon => "P1-WIN",
        Standing::SecondWon => "P2-WIN",
        Standing::Tie => "TIE",
    }
}

/// The standing that is written so.
pub(crate) fn standing_in(text: &str) -> Option<Standing>
    ensures { result ≡ standing_in text.now }
{
    match text {
        "P1-NEXT" => Some(Standing::FirstNext),
        "P2-NEXT" => Some(Standing::SecondNext),
        "P1-WIN" => Some(Standing::FirstWon),
        "P2-WIN" => Some(Standing::SecondWon),
        "TIE" => Some(Standing::Tie),
        _ => None,
    }
}

/// The board of nine marks that is written so.
pub(crate) fn board_in(text: &str) -> Option<Board>
    ensures { result ≡ board_in text.now }
{
    let codes = text.as_bytes();
    if codes.len() != 9 {
        return None;
    }
    let mut board = [Mark::Empty; 9];
    for place in 0..9 {
        board[place] = mark_in(codes[place])?;
    }
    Some(board)
}
