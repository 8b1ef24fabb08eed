// Reads a history file on standard input and prints its estimates: how it is read is in `views`, what is printed in `report`.
#![tactic(auto)]

use report::PAGE;
use std::io;

// Reads the file, and prints what it tells. (No contract can say what is read or written.)
fn main(rt: HostRuntime) -> io::Result<()> {
    let mut page = [0u8; PAGE];
    let k = views::show(&mut rt.reader(), &mut page)?;
    if rt.write_all(&page[..k]).is_err() {
        eprintln!(rt; "show: the output is lost")?;
    }
    Ok(())
}
