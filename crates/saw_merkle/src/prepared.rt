//! What a state needs to make a map known.

ghost use Rattle.std.specs.Prelude.{◌≡◌};

use saw_node::NodeHash;
use saw_runs::NewPiece;
use saw_wire::Items;
use std::marker::Model;

/// The root of a map, and pieces of it, among them all that no known map has.
#[derive(Drop)]
pub struct Prepared {
    pub(crate) root: NodeHash,
    pub(crate) news: Items<NewPiece>,
}

impl Model for Prepared {
    ghost use Rattle.std.specs.Coded.{codes};
    ghost use Rattle.std.proofs.Props.{props};
    ghost use Rattle.saw_merkle.specs.Preparations.{Preparation};

    ghost Value = { Preparation };

    ghost coded = { Prim.hlevel (codes, props) };

    ghost view = { λ prepared. record { root = prepared.root; news = prepared.news } };
}

impl Prepared {
    /// The root of the map.
    pub fn root(&self) -> NodeHash
        ensures { result ≡ self.now.root }
    {
        self.root
    }
}
