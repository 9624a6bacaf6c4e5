//! A first program: an order goes to a file and comes back, and a file that was damaged is refused.
#![tactic(auto)]

mod order;

use order::Order;
use std::alloc::{AllocError, Global};
use std::process::ExitCode;
use std::rt::Files;
use std::{fs, io};
use thiserror::Error;
use wincode::prelude::*;

/// Where the order is kept.
const PATH: &str = "order.bin";

/// Why the program, or a part of it, ends early.
#[derive(Debug, Drop, Error)]
enum Fault {
    #[error(transparent)]
    File(#[from] io::Error),
    #[error(transparent)]
    Memory(#[from] AllocError),
    #[error(transparent)]
    Write(#[from] WriteError),
    #[error("refused at position {position}: {error}")]
    Read { position: usize, error: ReadError },
}

fn first_order(alloc: Global) -> Result<Order, Fault> {
    Ok(Order {
        id: 7,
        paid: true,
        buyer: String::from_str(alloc, "Ada")?,
        items: Vec::from_slice(alloc, &[258, 5])?,
    })
}

fn save(rt: &(impl Files + AllocGlobal), order: &Order) -> Result<(), Fault> {
    let bytes = serialize(rt.alloc(), order)?;
    fs::write(rt, PATH, bytes.as_slice())?;
    Ok(())
}

fn load(rt: &(impl Files + AllocGlobal)) -> Result<Order, Fault> {
    let bytes = fs::read(rt, PATH)?;
    let mut cursor = Cursor::new(bytes.as_slice());
    match Order::get(rt.alloc(), &mut cursor) {
        Ok(order) => Ok(order),
        Err(error) => {
            let position = cursor.position();
            Err(Fault::Read { position, error })
        }
    }
}

/// Puts 2, which is no flag, in the place of the order's flag.
fn damage(rt: &(impl Files + AllocGlobal)) -> Result<(), Fault> {
    let mut bytes = fs::read(rt, PATH)?;
    if let Some(flag) = bytes.as_mut_slice().get_mut(8) {
        *flag = 2;
    }
    fs::write(rt, PATH, bytes.as_slice())?;
    Ok(())
}

fn run(rt: &(impl Files + Print + AllocGlobal)) -> Result<(), Fault> {
    save(rt, &first_order(rt.alloc())?)?;
    let order = load(rt)?;
    println!(rt;
        "order {} of {}: {} items",
        order.id,
        order.buyer,
        order.items.len()
    )?;

    damage(rt)?;
    if let Err(fault) = load(rt) {
        println!(rt; "{fault}")?;
    }
    fs::remove_file(rt, PATH)?;
    Ok(())
}

fn main(rt: HostRuntime) -> ExitCode {
    match run(&rt) {
        Ok(()) => ExitCode::SUCCESS,
        Err(fault) => {
            let _ = eprintln!(rt; "{fault}");
            ExitCode::FAILURE
        }
    }
}
