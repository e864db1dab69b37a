// Payments that come back, run: a line for each edge of prepare's default way (document 02, A5) and of the M8 records
// (A6). Where no page is told it is page 0.
#![tactic(auto)]

use drafts::{tell_text_whether, untouched};
use std::io;

mod default_way;
mod draft;
mod filing;

// Whether the output is as due. Where nothing is due, it is to hold the pattern that it came with.
fn tell_output(rt: &impl Print, out: &[u8], due: Option<&[u8]>) -> io::Result<()> {
    match due {
        Some(due) => tell_text_whether(rt, "  output as due, and untouched behind", out == due),
        None => tell_text_whether(rt, "  output untouched", untouched(out)),
    }
}

fn main(rt: HostRuntime) -> io::Result<()> {
    default_way::edges(&rt)?;
    filing::edges(&rt)
}
