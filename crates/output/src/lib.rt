//! What is put into a lent output, byte after byte: numbers, places in the text, and bytes as they are. A byte past the
//! output's end is counted and not written, so that on an empty output the same methods only count; and what is written
//! only where all of it has room.
#![tactic(auto)]

ghost use Rattle.std.specs.Prelude.{ℕ, List, ◌≡◌, ◌≤◌, [], ◌∷◌, ◌++◌, length, IsTrue};
ghost use Rattle.definition.specs.Basic.{le4, le8};
ghost use Rattle.definition.specs.Calls.{after_writing, fitting, left};
ghost use Rattle.definition.specs.Listing.{span_bytes};
ghost use Rattle.output.specs.Puts.{Countable, Puts};

use definition::{Refusal, Span};

/// A lent output, and the place after the bytes that were put into it.
// A place stands beside the output, since bytes past its end are counted too.
#[derive(Drop)]
pub struct Sink<'a> {
    /// The output.
    pub out: &'a mut [u8],
    /// The place after the bytes.
    pub at: usize,
}

impl<'a> Sink<'a> {
    /// The output, with nothing in it yet.
    pub fn new(out: &'a mut [u8]) -> Sink<'a>
        ensures same_reference { result.out.ghost_name ≡ out.entry.ghost_name }
        ensures first { result.at ≡ 0 }
        ensures same { result.out.now ≡ out.old }
    {
        Sink { out, at: 0 }
    }

    /// One byte, where the output has its place.
    pub fn byte(&mut self, b: u8)
        requires { Countable self.old.at (b ∷ []) }
        ensures { Puts self.old (b ∷ []) self.new }
    {
        if self.at < self.out.len() {
            self.out[self.at] = b;
        }
        self.at += 1;
    }

    /// Bytes, each where the output has its place. Where it has them all, they are stored as one.
    pub fn bytes<const N: usize>(&mut self, bytes: [u8; N])
        requires { Countable self.old.at bytes }
        ensures { Puts self.old bytes.entry self.new }
    {
        if self.out.len() < self.at + N {
            for b in bytes {
                self.byte(b);
            }
        } else {
            let end = self.at + N;
            self.out[self.at..end].copy_from_slice(&bytes);
            self.at = end;
        }
    }

    /// A number in four bytes, the lowest first.
    pub fn number(&mut self, x: usize)
        requires { Countable self.old.at (le4 x) }
        ensures { Puts self.old (le4 x) self.new }
    {
        self.bytes(((x % 4294967296) as u32).to_le_bytes());
    }

    /// A number in eight bytes, the lowest first.
    pub fn long(&mut self, x: usize)
        requires { Countable self.old.at (le8 x) }
        ensures { Puts self.old (le8 x) self.new }
    {
        self.bytes(x.to_le_bytes());
    }

    /// Two numbers in four bytes each, the lowest first; stored as one.
    #[tactic(auto, using(crate::proofs::PutLaws::pair_steps))]
    pub fn pair(&mut self, x: usize, y: usize)
        requires { Countable self.old.at (le4 x ++ le4 y) }
        ensures { Puts self.old (le4 x ++ le4 y) self.new }
    {
        self.long(x % 4294967296 + y % 4294967296 * 4294967296);
    }

    /// A place in the text: its start, its length.
    pub fn span(&mut self, w: Span)
        requires { Countable self.old.at (span_bytes w) }
        ensures { Puts self.old (span_bytes w) self.new }
    {
        self.pair(usize::from(w.start), usize::from(w.len));
    }
}

// ---------------------------------------------------------------- what is written whole

/// What is written into an output whole, or not at all.
pub trait Written: Copy {
    // Its bytes, the same each time.
    ghost bytes: { Self → List ℕ };

    /// Puts its bytes into an output with nothing in it yet.
    fn put(self, sink: &mut Sink)
        requires { sink.old.at ≡ 0 }
        ensures { Puts sink.old (bytes self) sink.new };

    /// How many they are: counted, if that isn't known.
    fn measure(self) -> usize
        ensures { result ≡ length (bytes self) }
    {
        let mut sink = Sink::new(&mut []);
        self.put(&mut sink);
        sink.at
    }

    /// Whether an output of so many places is known to have room for them, so that they need not be counted.
    fn has_ample(self, places: usize) -> bool
        ensures { IsTrue result → length (bytes self) ≤ places }
    {
        false
    }
}

/// Writes it if the output has room for it, and answers its length; 31, with its length, if not.
pub fn write<W: Written>(what: W, out: &mut [u8]) -> Result<usize, Refusal>
    ensures { left result out.new []
        ≡ after_writing (fitting (length out.old) (W.bytes what)) out.old [] }
{
    if !what.has_ample(out.len()) {
        let needed = what.measure();
        let lacks = out.len() < needed;
        if lacks {
            return Err(Refusal::OutputTooShort { needed });
        }
    }
    let mut sink = Sink::new(out);
    what.put(&mut sink);
    Ok(sink.at)
}
