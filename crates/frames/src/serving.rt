// A program's run over frames, for any program: each is answered in turn, until the input is over.
ghost use Rattle.std.specs.Prelude.{List, length, suc, ◌≡◌, ◌+◌, ◌<◌, ◌≤◌, ℕ};
ghost use Rattle.frames.specs.Coded.{LINE_ROOM};
ghost use Rattle.frames.specs.Runs.{Ran};

use crate::LINE_ROOM;
use crate::output::Output;
use crate::stream::{self, Input};

// What answers frames, each by a text that it puts into the output.
pub trait Answerer {
    // From a state of it, the content of a frame: the text that answers it, and the state then.
    ghost gives: { Self → List ℕ → List ℕ → Self → Type 0 };

    // How that text is put into a buffer from a place on: what the buffer has then, and the place after it.
    ghost puts: { List ℕ → ℕ → List ℕ → List ℕ → ℕ → Type 0 };

    // How many frames more it can answer.
    ghost left: { Self → ℕ };

    // Answers the content of a frame.
    fn answer(&mut self, content: &[u8], out: &mut Output<LINE_ROOM>)
        requires { (0 < left self.old) × (out.old.put + LINE_ROOM ≤ length out.old.bytes) }
        ensures answered { (text : List ℕ) × gives self.old content.now text self.new × puts out.old.bytes out.old.put text out.new.bytes out.new.put }
        ensures counted { left self.old ≤ suc (left self.new) };
}

// Answers frames until the input is over, or as many as `most`, and prints what waits then.
pub fn serve<A: Answerer>(
    answerer: &mut A,
    input: &mut Input,
    out: &mut Output<LINE_ROOM>,
    most: u64,
)
    requires { most ≤ A.left answerer.old }
    ensures { (out.new.put ≡ 0) × (length input.new.bytes ≡ length input.old.bytes) × Ran A A.gives A.puts answerer.old most input.old out.old input.new out.new }
{
    let mut ahead = stream::next_frame(input, out);
    for _ in 0..most {
        let Some(size) = ahead else { break };
        answerer.answer(input.content(size), out);
        input.pass(size);
        ahead = stream::next_frame(input, out);
    }
    out.flush();
}
