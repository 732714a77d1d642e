// Writes plans as records, reads them back and prints both; then records at the ends of each limit, good and refused.
#![tactic(auto)]

use records::Record;
use refusals::Refusal;
use scripts::fault_line;
use std::io;

// Reads a record, and prints the bytes and what comes of them.
fn show(rt: &HostRuntime, bytes: &[u8]) -> io::Result<()> {
    for byte in bytes {
        print!(rt; "{byte:02X} ")?;
    }
    print!(rt; "= ")?;
    match Record::read(bytes) {
        Ok(record) => println!(rt; "{record}"),
        Err(fault) => {
            print!(rt; "{:?} ", fault.reader)?;
            rt.print(fault_line(rt.alloc(), fault)?)
        }
    }
}

fn print_refusal(rt: &HostRuntime, refusal: Refusal) -> io::Result<()> {
    println!(rt; "refused with {}", u8::from(refusal))
}

// Writes a record into nine bytes, and reads it back.
fn write_and_show(rt: &HostRuntime, record: Record) -> io::Result<()> {
    print!(rt; "{record}: ")?;
    let mut buffer = [0; 9];
    match record.write(&mut buffer) {
        Ok(length) => {
            println!(rt; "{length} bytes")?;
            show(rt, &buffer[..length])
        }
        Err(refusal) => print_refusal(rt, refusal),
    }
}

fn written(rt: &HostRuntime) -> io::Result<()> {
    let plans: [(u32, u32, u32, &[u8]); 11] = [
        (3, 2, 0, &[1, 0, 0, 1]),
        (1, 1, 0, &[]),
        (32, 32, 31, &[31]),
        (0, 2, 0, &[]),
        (33, 2, 0, &[]),
        (3, 0, 0, &[]),
        (3, 33, 0, &[]),
        (259, 2, 0, &[]),
        (3, 2, 3, &[]),
        (3, 2, 2, &[0, 2]),
        (3, 2, 2, &[0, 0, 0, 0, 0]),
    ];
    for (poses, actions, end, list) in plans {
        let record = Record {
            poses,
            actions,
            end,
            list,
        };
        write_and_show(rt, record)?;
    }
    Ok(())
}

fn refused(rt: &HostRuntime) -> io::Result<()> {
    let records: [&[u8]; 17] = [
        &[],
        &[3, 3],
        &[4],
        &[4, 0],
        &[4, 33],
        &[4, 3],
        &[4, 3, 0],
        &[4, 3, 33],
        &[4, 3, 2],
        &[4, 3, 2, 3],
        &[4, 3, 2, 32],
        &[4, 3, 2, 2],
        &[4, 3, 2, 2, 1],
        &[4, 3, 2, 2, 1, 2],
        &[4, 3, 2, 2, 1, 33, 32],
        &[4, 3, 2, 2, 32, 32],
        &[4, 3, 2, 2, 1, 32, 7, 7],
    ];
    for bytes in records {
        show(rt, bytes)?;
    }
    Ok(())
}

// Prints how long the plan of a record is, or its fault.
fn show_length(rt: &HostRuntime, bytes: &[u8]) -> io::Result<()> {
    print!(rt; "{} bytes = ", bytes.len())?;
    match Record::read(bytes) {
        Ok(record) => println!(rt; "plan of {} actions", record.list.len()),
        Err(fault) => rt.print(fault_line(rt.alloc(), fault)?),
    }
}

// Writes the plan of these actions, each of them action 0, and prints how long the plan of its record is.
fn write_and_show_length(rt: &HostRuntime, list: &[u8], buffer: &mut [u8]) -> io::Result<()> {
    let record = Record {
        poses: 1,
        actions: 1,
        end: 0,
        list,
    };
    match record.write(buffer) {
        Ok(length) => show_length(rt, &buffer[..length]),
        Err(refusal) => print_refusal(rt, refusal),
    }
}

// Plans of 16,384 actions and of one more.
fn long(rt: &HostRuntime) -> io::Result<()> {
    let list = [0; 16385];
    let mut buffer = [0; 16390];
    write_and_show_length(rt, &list[..16384], &mut buffer)?;
    // From 0: with a bare end the check leaves a goal open here.
    show_length(rt, &buffer[0..16388])?;
    buffer[16388] = 1;
    show_length(rt, &buffer)?;
    buffer[16388] = 0;
    buffer[16389] = 32;
    show_length(rt, &buffer)?;
    write_and_show_length(rt, &list, &mut buffer)
}

fn main(rt: HostRuntime) -> io::Result<()> {
    written(&rt)?;
    refused(&rt)?;
    long(&rt)
}
