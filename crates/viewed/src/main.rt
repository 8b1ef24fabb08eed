// Runs what the programs do over the files in data/, one after the other: inputs that a program's own run, on one file, does not have.
#![tactic(auto)]

use kinds::Height;
use report::PAGE;
use std::fs::File;
use std::io;

// A file's name on a line, and the file to read.
fn opened(rt: &HostRuntime, name: &str) -> io::Result<File> {
    println!(rt; "{name}")?;
    File::open(rt, name)
}

// What `show` prints of a file. (A page that is lost is passed over: the next file's name then ends the run.)
fn shown(rt: &HostRuntime, name: &str) -> io::Result<()> {
    let mut input = opened(rt, name)?;
    let mut page = [0u8; PAGE];
    let k = views::show(&mut input, &mut page)?;
    let _put = rt.write_all(&page[..k]).is_ok();
    Ok(())
}

// What `inspect` prints of a file.
fn inspected(rt: &HostRuntime, name: &str, chain: Option<Height>) -> io::Result<()> {
    let mut input = opened(rt, name)?;
    let mut page = [0u8; PAGE];
    let k = views::inspect(&mut input, chain, &mut page)?;
    let _put = rt.write_all(&page[..k]).is_ok();
    Ok(())
}

// What `inspect` prints of a file beside a chain of that height.
fn beside(rt: &HostRuntime, name: &str, height: u32) -> io::Result<()> {
    inspected(rt, name, Some(Height(height)))
}

// 65,536 bytes and one more, an unknown version, and no byte at all. Then what `inspect` takes and what is too long for it; a file with no last height; and one whose
// last height is 101, beside each side of the two edges. Last, files of the wide board: a fresh one, which `show` does not take; one with rates in all columns but the
// first, alone and beside a chain; and a fresh one that says that its columns are one block wide.
fn main(rt: HostRuntime) -> io::Result<()> {
    let rt = &rt;
    shown(rt, "65536_zeros")?;
    shown(rt, "65537_zeros")?;
    shown(rt, "version_2")?;
    shown(rt, "empty")?;
    inspected(rt, "65537_zeros", None)?;
    inspected(rt, "/dev/zero", None)?;
    beside(rt, "fresh", 0)?;
    beside(rt, "quad", 100)?;
    beside(rt, "quad", 101)?;
    beside(rt, "quad", 4197)?;
    beside(rt, "quad", 4198)?;
    shown(rt, "wide_fresh")?;
    inspected(rt, "wide_fresh", None)?;
    inspected(rt, "wide_three", None)?;
    beside(rt, "wide_three", 112)?;
    beside(rt, "wide_three", 113)?;
    inspected(rt, "wide_width_1", None)
}
