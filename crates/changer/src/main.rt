// The program: frames of requests from standard input, a line for each to standard output, in bounded memory. A bad frame ends it.
#![tactic(auto)]

ghost use Rattle.std.specs.Prelude.{◌≡◌};
ghost use Rattle.changer.specs.Answers.{Answers, start_controller};
ghost use Rattle.frames.specs.Program.{answered_length};
ghost use Rattle.frames.specs.Runs.{AtStart};

use frames::LINE_ROOM;
use frames::output::Output;
use frames::serving::{Answerer, serve};
use frames::stream::Input;
use numbers::Refusal;
use std::marker::Model;
use timetable::Timetable;

// The timetable in force, and the next request's ordinal.
// The timetable is sound, as the empty one is and each that a change returns, so it is not tested again.
#[derive(Drop)]
struct Controller {
    timetable: Timetable,
    ordinal: u64,
}

impl Model for Controller {
    ghost use Rattle.std.specs.Prelude.{true, ◌≡◌};
    ghost use Rattle.changer.specs.States.{ControllerState};
    ghost use Rattle.timetable.specs.Sound.{is_sound};

    ghost Value = { ControllerState };

    ghost view = { λ s. record { timetable = s.timetable; ordinal = s.ordinal } };

    ghost invariant = { λ s. is_sound s.timetable ≡ true };
}

impl Controller {
    // A controller starts with the empty timetable, and its first request is number 1.
    fn new() -> Controller
        ensures { result ≡ start_controller }
    {
        Controller {
            timetable: Timetable::empty(),
            ordinal: 1,
        }
    }
}

impl Answerer for Controller {
    ghost use Rattle.std.specs.Prelude.{◌-◌, ◌^◌};
    ghost use Rattle.changer.specs.Answers.{Answered};
    ghost use Rattle.frames.specs.Coded.{Puts};

    ghost gives = { Answered };

    ghost puts = { Puts };

    ghost left = { λ s. 2 ^ 64 - 1 - s.ordinal };

    // A request is answered, and its line put into the output.
    fn answer(&mut self, request: &[u8], out: &mut Output<LINE_ROOM>) {
        let mut area = [0u8; Timetable::AREA];
        let o = change::change_sound(self.timetable.known_sound(), request, &mut area);
        let now = o.timetable;
        let size = length_of(o.number, now.length);
        out.write_line(self.ordinal, o.number, o.place, o.tries, size);
        self.timetable = now;
        self.ordinal += 1;
    }
}

fn main(rt: HostRuntime) {
    let mut input = io::large_buffer();
    let mut out = io::large_buffer();
    run(
        &mut Input::new(rt.stdin(), &mut input, 0, 0),
        &mut Output::new(rt.stdout(), &mut out, 0),
    );
}

// Answers requests until the input is over, with nothing read and nothing put at the start, and leaves no output waiting.
// A proved loop has to end: this one would at the largest ordinal, which no run reaches.
fn run(input: &mut Input, out: &mut Output<LINE_ROOM>)
    requires { AtStart input.old out.old }
    ensures { (out.new.put ≡ 0) × Answers input.old out.old input.new out.new }
{
    serve(&mut Controller::new(), input, out, u64::MAX - 1);
}

// The transition's length, 0 if the request was refused.
#[tactic(auto, unfolding(frames::specs::Program::answered_length))]
fn length_of(number: u8, length: u8) -> u8
    ensures { result ≡ answered_length number length }
{
    if number == Refusal::ACCEPTED {
        length
    } else {
        0
    }
}
