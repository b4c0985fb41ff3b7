use netfile::{NetworkFault, NetworkFile};
use std::io;

fn print_opened(rt: &HostRuntime, file: &NetworkFile) -> io::Result<()> {
    let sites = file.site_count();
    let lines = file.line_count();
    println!(rt; ": opened: {sites} sites, {lines} lines")
}

fn print_denied(rt: &HostRuntime, fault: NetworkFault) -> io::Result<()> {
    let number = fault.number();
    let layer = fault.layer();
    let place = fault.place();
    println!(rt; ": denied {number}, {layer}: byte {place}")
}

/// Opens the bytes as a network file, and prints what it holds or what is wrong with it.
pub fn print_file(rt: &HostRuntime, bytes: &[u8]) -> io::Result<()> {
    match NetworkFile::open(bytes) {
        Ok(file) => print_opened(rt, &file),
        Err(fault) => print_denied(rt, fault),
    }
}
