// Runs stored schedules, with a till or without one: the arguments are pairs, the name of a schedule file and that of a
// till file, or `-` for no till. The text of the runs of each pair is written to standard output, under both names.
#![tactic(auto)]

ghost use Rattle.std.specs.Prelude.{◌<◌, ◌≤◌, length, IfSome};

use arguments::{read_file, report, take_argument};
use std::rt::{Env, Files};
use std::{env, io};
use stored::put_runs;
use text::join;

// The text of the runs of the pair whose first argument is i. At most one byte more of a file is read than the longest
// good one has, as in the sheet program.
fn put_pair(rt: &(impl Env + Files + Eprint), i: usize, text: &mut [u8]) -> Option<usize>
    requires { i < usize.MAX }
    ensures { IfSome result (λ len. len ≤ length text.new) }
{
    let mut one = [0u8; 4096];
    let named = take_argument(rt, i, &mut one)?;
    let mut two = [0u8; 4096];
    let told = take_argument(rt, i + 1, &mut two)?;
    let mut file = [0u8; 8198];
    let length = read_file(rt, &one[0..named], &mut file)?;
    let mut room = [0u8; 99];
    let till = if two[0] == b'-' {
        None
    } else {
        let long = read_file(rt, &two[0..told], &mut room)?;
        Some(&room[0..long])
    };
    let mut name = [0u8; 4096];
    let both = join(&mut name, &one[0..named], &two[0..told]).unwrap_or(0);
    put_runs(text, &name[0..both], &file[0..length], till)
}

fn main(rt: HostRuntime) -> io::Result<()> {
    let mut text = [0u8; 98304];
    for i in (1..env::args(&rt)?.len()).step_by(2) {
        if let Some(len) = put_pair(&rt, i, &mut text) {
            report(&rt, "runs", rt.write_all(&text[0..len]))?;
        }
    }
    Ok(())
}
