//! The ten largest flows of the capture on standard input: octo's crates as a library.
#![tactic(auto)]

use capture_load::load_capture;
use count_min::CountMin;
use flow_base::StdSource;
use hash_rows::{Amount, Flow, Shape};
use heavy_keys::heaviest;
use packet_key::key_text;
use reports::sequential;
use std::process::ExitCode;

const SHAPE: Shape = Shape {
    rows: 4,
    columns: 2048,
};

fn print_flow(rt: &HostRuntime, flow: &Flow) -> bool {
    let mut text = [0; 100];
    let length = key_text(&flow.key, &mut text);
    match str::from_utf8(&text[..length]) {
        Ok(key) => println!(rt; "{} {key}", flow.estimate).is_ok(),
        Err(_) => false,
    }
}

fn main(rt: HostRuntime) -> ExitCode {
    let mut source = StdSource::new(rt.reader());
    let Ok(capture) = load_capture(rt.alloc(), &mut source, Amount::Packets) else {
        return ExitCode::FAILURE;
    };
    let packets = capture.packets.as_slice();
    let Ok(table) = sequential::<CountMin>(rt.alloc(), packets, SHAPE) else {
        return ExitCode::FAILURE;
    };
    let Ok(top) = heaviest(rt.alloc(), packets, &table, 1, 10) else {
        return ExitCode::FAILURE;
    };
    for flow in top.flows.as_slice() {
        if !print_flow(&rt, flow) {
            return ExitCode::FAILURE;
        }
    }
    ExitCode::SUCCESS
}
