// Whatever can be written into a lent buffer. A writer takes the rest of the buffer and puts its text
// at the front of it; every byte behind is kept.
ghost use Rattle.std.specs.Prelude.{◌≡◌, ℕ, List, [], ◌∷◌, ◌++◌, ◌+◌, ◌^◌, ◌<◌, ◌≤◌, length, take, drop};
ghost use Rattle.questions.specs.Buffers.{over};
ghost use Rattle.lines.specs.Fitting.{fitted, buffer_fitted};
ghost use Rattle.lines.specs.Splitting.{all_texts};

// What can be written: its bytes, how many there are, and how they get into a buffer.
pub trait Text {
    ghost bytes: { Self → List ℕ };

    // How many bytes it has.
    fn length(&self) -> usize
        requires { length (bytes self.now) < 2 ^ 64 }
        ensures { result ≡ length (bytes self.now) };

    // Writes the text at the start of out, and answers its length.
    fn put(&self, out: &mut [u8]) -> usize
        requires { length (bytes self.now) ≤ length out.old }
        ensures value { result ≡ length (bytes self.now) }
        ensures out_after { out.new ≡ over (bytes self.now) out.old };
}

impl Text for &[u8] {
    ghost bytes = { λ s. s.now };

    fn length(&self) -> usize {
        self.len()
    }

    // Byte by byte: a call that copies takes longer for so few.
    #[tactic(auto, using(crate::proofs::LentParts::byte_steps))]
    fn put(&self, out: &mut [u8]) -> usize {
        for (at, byte) in self.iter().enumerate() {
            out[at] = *byte;
        }
        self.len()
    }
}

// One byte.
#[derive(Clone, Copy, Debug, PartialEq, Eq)]
pub struct Byte(pub u8);

impl Text for Byte {
    ghost bytes = { λ b. b.0 ∷ [] };

    fn length(&self) -> usize {
        1
    }

    #[tactic(auto, unfolding(questions::specs::Buffers::over))]
    fn put(&self, out: &mut [u8]) -> usize {
        out[0] = self.0;
        1
    }
}

// One text behind another.
#[derive(Clone, Copy, Debug, PartialEq, Eq)]
pub struct Behind<A, B>(pub A, pub B);

impl<A: Text, B: Text> Text for Behind<A, B> {
    ghost bytes = { λ t. A.bytes t.0 ++ B.bytes t.1 };

    fn length(&self) -> usize {
        self.0.length() + self.1.length()
    }

    #[tactic(auto, unfolding(questions::specs::Buffers::over))]
    fn put(&self, out: &mut [u8]) -> usize {
        let at = self.0.put(out);
        at + self.1.put(&mut out[at..])
    }
}

// Writes the text at a place of out, and answers the place behind it.
#[tactic(auto, using(std::proofs::lemmas::Slice::overwrites), unfolding(questions::specs::Buffers::over))]
pub fn put_behind<T: Text>(out: &mut [u8], at: usize, text: &T) -> usize
    requires { at + length (T.bytes text.now) ≤ length out.old }
    ensures place { result ≡ at + length (T.bytes text.now) }
    ensures front { take result out.new ≡ take at out.old ++ T.bytes text.now }
    ensures rest { drop result out.new ≡ drop result out.old }
    ensures room { length out.new ≡ length out.old }
{
    at + text.put(&mut out[at..])
}

// Texts one behind the other.
impl<T: Text> Text for &[T] {
    ghost bytes = { λ s. all_texts T.bytes s.now };

    #[tactic(auto, unfolding(crate::specs::Splitting::joined))]
    fn length(&self) -> usize {
        let mut n = 0;
        for text in *self {
            n += text.length();
        }
        n
    }

    #[tactic(auto, unfolding(crate::specs::Splitting::joined, questions::specs::Buffers::over))]
    fn put(&self, out: &mut [u8]) -> usize {
        let mut at = 0;
        for text in *self {
            at = put_behind(out, at, text);
        }
        at
    }
}

// A text that does not fit its buffer: the length that is needed.
#[derive(Clone, Copy, Debug, PartialEq, Eq)]
pub struct TooShort(pub usize);

// Writes the text if it fits the buffer, and answers its length. It has at most `longest` bytes: where
// the buffer takes so many, its length need not be found first.
pub fn write_fitted<T: Text>(text: &T, longest: usize, buffer: &mut [u8]) -> Result<usize, TooShort>
    requires { length (T.bytes text.now) ≤ longest }
    ensures value { result ≡ fitted (length buffer.old) (T.bytes text.now) }
    ensures buffer_after { buffer.new ≡ buffer_fitted (T.bytes text.now) buffer.old }
{
    if buffer.len() < longest {
        let needed = text.length();
        if buffer.len() < needed {
            return Err(TooShort(needed));
        }
    }
    Ok(text.put(buffer))
}
