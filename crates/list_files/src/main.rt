// Prints the name and then the listing of each file of data/ on standard output.
#![tactic(auto)]

use std::rt::Files;
use std::{fs, io};

fn main(rt: HostRuntime) -> io::Result<()> {
    accepted(&rt)?;
    split(&rt)?;
    codes(&rt)
}

// Panels that are listed.
fn accepted(rt: &(impl Files + Print + Eprint)) -> io::Result<()> {
    case(rt, "paper")?;
    case(rt, "empty_table")?;
    case(rt, "every_type")?;
    case(rt, "largest")
}

// Inputs that cannot be split or are too long, and inputs close to these.
fn split(rt: &(impl Files + Print + Eprint)) -> io::Result<()> {
    case(rt, "no_bytes")?;
    case(rt, "three_bytes")?;
    case(rt, "cut_table")?;
    case(rt, "table_alone")?;
    case(rt, "bad_table_alone")?;
    case(rt, "bytes_65536")?;
    case(rt, "bytes_65537")?;
    case(rt, "image_longer")?;
    case(rt, "length_under_least")
}

// An input for each code of a table or an image.
fn codes(rt: &(impl Files + Print + Eprint)) -> io::Result<()> {
    case(rt, "code_2")?;
    case(rt, "code_2_image")?;
    case(rt, "code_3")?;
    case(rt, "code_4")?;
    case(rt, "code_5")?;
    case(rt, "code_6")?;
    case(rt, "code_7")?;
    case(rt, "code_8")?;
    case(rt, "code_8_image")?;
    case(rt, "code_9")?;
    case(rt, "code_10")?;
    case(rt, "code_11")?;
    case(rt, "code_12")
}

// A file that can't be opened is named on standard error, with why, and the run goes on.
fn case(rt: &(impl Files + Print + Eprint), name: &str) -> io::Result<()> {
    println!(rt; "{name}")?;
    match fs::open(rt, name) {
        Ok(mut file) => shell::list_between(&mut file, &mut io::writer(rt)),
        Err(error) => eprintln!(rt; "{name}: {error}"),
    }
}
