// Runs `arguments::run_files`, and then `run_pairs`, on its arguments: no contract can say which calls they make. For each
// call it writes `run`, what stands for the name, and the bytes in brackets, those of a pair apart. Each call answers with
// an error then, which ends neither.
#![tactic(auto)]

ghost use Rattle.std.specs.Prelude.{⊤};

use arguments::{run_files, run_pairs, write_run};
use std::io;

// The buffers are shorter than the longest of the stored files.
fn main(rt: HostRuntime) -> io::Result<()> {
    let mut first = [0u8; 3];
    let mut second = [0u8; 4];
    run_files(
        &rt,
        "argument_runs",
        &mut first,
        |name, bytes|
            requires { ⊤ }
        {
            write_run(&mut rt.stdout(), name, b"[")?;
            rt.write_all(bytes)?;
            rt.write_all(b"]\n")?;
            Err(io::ErrorKind::Other.into())
        },
    )?;
    run_pairs(
        &rt,
        "argument_runs",
        &mut first,
        &mut second,
        |names, one, two|
            requires { ⊤ }
        {
            write_run(&mut rt.stdout(), names, b"[")?;
            rt.write_all(one)?;
            rt.write_all(b"] [")?;
            rt.write_all(two)?;
            rt.write_all(b"]\n")?;
            Err(io::ErrorKind::Other.into())
        },
    )
}
