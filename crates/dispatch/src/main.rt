// The dispatcher's program: reads one file of wanted calls from standard input, writes its sheet to standard output
// and, where it has an argument, the steps given as a schedule to the file that the argument names.
#![tactic(auto)]

use arguments::{read_full, report};
use dispatcher::sheet_file;
use file::rows_of;
use std::fs::File;
use std::io::Write;
use std::{env, fs, io};

// At most one byte more is read than the longest good file has, as in the program `sheet`. The buffers are as long as
// every file needs, so refusals 4 and 9 do not arise here. After 1 to 3 no schedule comes back: the buffer still has no
// nodes, and no file is written.
//
// The schedule is written to a new file beside the one named, the name with `.new` behind it, which then takes that
// name: what stood there before is lost only once the whole schedule is written. `create_new` takes no name that is
// taken, so no other file is lost either. What fails is said on standard error, where the script `./sheet` looks for
// it.
fn main(rt: HostRuntime) -> io::Result<()> {
    let mut file = [0u8; 8198];
    let length = read_full(&mut rt.stdin(), &mut file);
    let mut schedule = [0u8; 8197];
    let mut sheet = [0u8; 8192];
    let len = sheet_file(&file[0..length], &mut schedule, &mut sheet).unwrap_or(0);
    let _ = report(&rt, "dispatch", rt.write_all(&sheet[0..len]));
    if schedule[0] == 0 {
        return Ok(());
    }
    let end = 5 + 2 * rows_of(&schedule);
    let Some(name) = env::args(&rt)?.nth(1) else {
        return Ok(());
    };
    if 4091 < name.len() {
        let _ = eprintln!(rt; "dispatch: the schedule's name is too long");
        return Ok(());
    }
    let beside = format!(in rt.alloc(); "{name}.new")?;
    let mut made = match File::create_new(&rt, beside.as_str()) {
        Ok(made) => made,
        Err(error) => {
            let _ = eprintln!(rt; "{beside}: {error}");
            return Ok(());
        }
    };
    let mut written = made.write_all(&schedule[0..end]);
    if written.is_ok() {
        // Some file systems tell only here that there is no room.
        written = made.sync_all();
    }
    drop(made);
    match written {
        Ok(()) => match fs::rename(&rt, beside.as_str(), name.as_str()) {
            Ok(()) => return Ok(()),
            Err(error) => {
                let _ = eprintln!(rt; "{name}: {error}");
            }
        },
        Err(error) => {
            let _ = eprintln!(rt; "{beside}: {error}");
        }
    }
    if let Err(error) = fs::remove_file(&rt, beside.as_str()) {
        let _ = eprintln!(rt; "{beside}: {error}");
    }
    Ok(())
}
