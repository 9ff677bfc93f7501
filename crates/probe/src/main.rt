// A test tool: any timetable, record, request and area through the library's C interface, and everything that comes back printed. Its protocol is docs/PROBE.md.
#![tactic(auto)]

ghost use Rattle.std.specs.Prelude.{◌≡◌};
ghost use Rattle.frames.specs.Runs.{AtStart};
ghost use Rattle.probe.specs.Probes.{Probes};

use frames::LINE_ROOM;
use frames::output::Output;
use frames::serving::serve;
use frames::stream::Input;
use probing::Prober;

mod archiving; // archiving.rt: the kinds of probe that have no image
mod kinds; // kinds.rt: what a probe asks for
mod probing; // probing.rt: what answers probes, and the kinds that have an image

fn main(rt: HostRuntime) {
    let mut input = io::large_buffer();
    let mut out = io::large_buffer();
    let mut image = io::large_buffer();
    let mut area = io::large_buffer();
    run(
        &mut Prober::new(&mut image, &mut area),
        &mut Input::new(rt.stdin(), &mut input, 0, 0),
        &mut Output::new(rt.stdout(), &mut out, 0),
    );
}

// Answers probes until the input is over, with nothing read and nothing put at the start, and leaves no output waiting. A proved loop has to end, so it counts the frames, up to a number that no run reaches.
fn run(prober: &mut Prober, input: &mut Input, out: &mut Output<LINE_ROOM>)
    requires { AtStart input.old out.old }
    ensures { (out.new.put ≡ 0) × Probes input.old out.old input.new out.new }
{
    serve(prober, input, out, u64::MAX);
}
