//! Lists of numbers for each number, laid end to end.

ghost use Rattle.std.specs.Prelude.{◌≡◌, ◌<◌, ◌+◌, ◌^◌, length};
ghost use Rattle.saw_ready.specs.Edges.{begin, finish, target};

/// The numbers that belong to k stand in `to` from the place `from[k]` on and before the place `from[k + 1]`.
#[derive(Drop)]
pub struct Edges {
    pub from: Vec<u32>,
    pub to: Vec<u32>,
}

impl Edges {
    pub(crate) fn begin(&self, k: usize) -> usize
        requires { k < length self.now.from.items }
        ensures value { result ≡ begin self.now k }
        ensures small { result < 2 ^ 32 }
    {
        self.from[k] as usize
    }

    pub(crate) fn finish(&self, k: usize) -> usize
        requires { k + 1 < length self.now.from.items }
        ensures { result ≡ finish self.now k }
    {
        self.from[k + 1] as usize
    }

    pub(crate) fn target(&self, place: usize) -> usize
        requires { place < length self.now.to.items }
        ensures { result ≡ target self.now place }
    {
        self.to[place] as usize
    }
}
