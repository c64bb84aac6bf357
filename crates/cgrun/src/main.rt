// The program cgrun: serves the lines of standard input, prints refusals and claims as they occur, then the listing.
// What it prints of a line is proved in the crate `program`; the crate `script` reads lines and writes what is printed.
#![tactic(auto)]

ghost use Rattle.std.specs.Prelude.{◌≤◌, length};

use host::lent::cg_open;
use program::serve::serve_end;
use script::serve_script;

// A write that fails is passed over.
fn print_listing(rt: &impl Print, image: &[u8], out: &mut [u8])
    requires { 16512 ≤ length out.old }
{
    let n = serve_end(image, out);
    let _ = rt.write_all(&out[..n]);
}

fn main(rt: HostRuntime) {
    let mut image = [0u8; 4112];
    let mut buffer = [0u8; 65536];
    let mut out = [0u8; 65536];
    cg_open(&mut image);
    serve_script(&rt, &mut image, &mut buffer, &mut out, true);
    print_listing(&rt, &image, &mut out);
}
