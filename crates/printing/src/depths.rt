//! How deep the entries of a listing stand.

ghost use Rattle.std.specs.Prelude.{◌≡◌, ◌≤◌, ◌∷◌, replicate};
ghost use Rattle.printing.specs.Depths.{still_open, taken, opened};

/// The deepest depth at which entries are counted.
const DEEPEST: usize = 255;

/// How many entries are still to come at each depth, in the list that is open there, the top list first: 0 where none
/// is. A listing has at most 130 lists in one another: 65 of statements, and a fold in each.
#[derive(Drop)]
pub struct Depths {
    /// How many are still to come at each depth.
    pub left: [u32; 256],
}

impl Depths {
    /// The beginning of a listing, whose top list has so many entries.
    pub fn new(top: u32) -> Depths
        ensures { result.left ≡ top ∷ replicate 255 0 }
    {
        let mut left = [0; 256];
        left[0] = top;
        Depths { left }
    }

    /// The depth of the next entry: that of the innermost list in which one is still to come. The entry is then one
    /// less to come there, and the members of a group are a list below it.
    pub fn enter(&mut self, members: Option<u32>) -> usize
        ensures depth { result ≡ still_open self.old.left 255 }
        ensures within { result ≤ 255 }
        ensures left { self.new.left ≡ opened (taken self.old.left result) result members }
    {
        let depth = self.innermost();
        self.left[depth] = self.left[depth].saturating_sub(1);
        self.open(depth, members);
        depth
    }

    fn innermost(&self) -> usize
        ensures depth { result ≡ still_open self.now.left 255 }
        ensures within { result ≤ 255 }
    {
        self.left.iter().rposition(|n| *n != 0).unwrap_or(0)
    }

    fn open(&mut self, depth: usize, members: Option<u32>)
        requires { depth ≤ 255 }
        ensures { self.new.left ≡ opened self.old.left depth members }
    {
        if let Some(n) = members
            && depth < DEEPEST
        {
            self.left[depth + 1] = n;
        }
    }
}
