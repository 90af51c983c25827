// Makes the calls of the worked examples, and prints what they gave.
#![tactic(auto)]

use examples::worked_examples;
use std::io;

fn print_bytes(rt: &HostRuntime, name: &str, bytes: &[u8]) -> io::Result<()> {
    print!(rt; "{name}:")?;
    for byte in bytes {
        print!(rt; " {byte:02X}")?;
    }
    println!(rt; "")
}

fn main(rt: HostRuntime) -> io::Result<()> {
    let worked = worked_examples();
    println!(rt; "operation B8 on F0, CC, AA: {:02X}", worked.all_rows)?;
    println!(rt; "operation 66 on 5, 3: {}", worked.exclusive)?;
    println!(rt; "line mode 7 on 12, 10: {}", worked.line_exclusive)?;
    print_bytes(&rt, "line to (5, 2)", &worked.gentle)?;
    print_bytes(&rt, "line to (4, 2)", &worked.tied)?;
    print_bytes(&rt, "painted", &worked.painted.memory)?;
    if let Some(rect) = worked.painted.bounds {
        println!(rt; "bounds: {rect}")?;
    }
    print_bytes(&rt, "PBM rows", &worked.painted.rows)?;
    print_bytes(&rt, "copied right", &worked.copied_right)?;
    print_bytes(&rt, "copied left", &worked.copied_left)?;
    print_bytes(&rt, "planes", &worked.planes)
}
