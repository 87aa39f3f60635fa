//! Many clients, and many names.

use crate::counted::add_line;
use crate::tables::prints;
use std::alloc::Global;
use std::test::Fail;

// The turns of clients that put in order, insert in the opposite order, and then end their creates in order.
fn add_turns(script: &mut String) -> Result<(), Fail> {
    let up =
        "turns 1 2 3 4 5 6 7 8 9 10 11 12 13 14 15 16 17 18 19 20 21 22 23 24 25 26 27 28 29 30 31 32\n";
    let down =
        "turns 32 31 30 29 28 27 26 25 24 23 22 21 20 19 18 17 16 15 14 13 12 11 10 9 8 7 6 5 4 3 2 1\n";
    for turns in [up, down, up] {
        script.push_str(turns)?;
    }
    Ok(())
}

fn one_name_script(alloc: Global) -> Result<String, Fail> {
    let mut script = String::from_str(alloc, "places 1 1\n")?;
    for client in 1..=32u64 {
        add_line(&mut script, "client # create /x\n", &[client])?;
    }
    add_turns(&mut script)?;
    Ok(script)
}

// Client k puts at position k - 1, inserts at 64 - k and makes its last step at 63 + k.
fn one_name_text(alloc: Global) -> Result<String, Fail> {
    let mut text = String::from_str(alloc, "cfs 1\nplaces 1 1\n")?;
    for client in 1..=31u64 {
        add_line(&mut text, "c # 1 EEXIST\n", &[client])?;
    }
    text.push_str("c 32 1 OK\nl 32 31 32 95 create 0 x = ok 32 f2048\n")?;
    for turn in 1..=31u64 {
        let client = 32 - turn;
        let numbers = [client, client - 1, 64 - client, 63 + client];
        add_line(&mut text, "l # # # # create 0 x = EEXIST\n", &numbers)?;
    }
    text.push_str(
        "t 0 / d0 children=1 links=2 time=32\n\
        t 0 x f2048 size=0 time=32\n\
        s steps=96 calls=32 unfinished=0 busy=0 forgets=0 owed=0 debts=0 marks=0 strays=0\n",
    )?;
    Ok(text)
}

#[test]
fn of_32_creates_of_one_name_one_succeeds(rt: HostRuntime) -> Result<(), Fail> {
    let script = one_name_script(rt.alloc())?;
    let text = one_name_text(rt.alloc())?;
    prints(
        &rt,
        "32 creates of one name",
        script.as_bytes(),
        text.as_bytes(),
    )
}

fn own_names_script(alloc: Global) -> Result<String, Fail> {
    let mut script = String::from_str(alloc, "places 1 1\n")?;
    for client in 1..=32u64 {
        add_line(&mut script, "client # create /n##\n", &[client, client])?;
    }
    add_turns(&mut script)?;
    Ok(script)
}

// Client k's file is 64 * k, of time k.
fn own_names_text(alloc: Global) -> Result<String, Fail> {
    let mut text = String::from_str(alloc, "cfs 1\nplaces 1 1\n")?;
    for client in 1..=32u64 {
        add_line(&mut text, "c # 1 OK\n", &[client])?;
    }
    for turn in 0..=31u64 {
        let k = 32 - turn;
        let numbers = [k, k - 1, 64 - k, 63 + k, k, k, 64 * k];
        add_line(&mut text, "l # # # # create 0 n## = ok # f#\n", &numbers)?;
    }
    text.push_str("t 0 / d0 children=32 links=2 time=32\n")?;
    for k in 1..=32u64 {
        add_line(&mut text, "t 0 n## f# size=0 time=#\n", &[k, 64 * k, k])?;
    }
    text.push_str(
        "s steps=96 calls=32 unfinished=0 busy=0 forgets=0 owed=0 debts=0 marks=0 strays=0\n",
    )?;
    Ok(text)
}

#[test]
fn of_32_creates_of_own_names_all_succeed(rt: HostRuntime) -> Result<(), Fail> {
    let script = own_names_script(rt.alloc())?;
    let text = own_names_text(rt.alloc())?;
    prints(
        &rt,
        "32 creates of own names",
        script.as_bytes(),
        text.as_bytes(),
    )
}

// The create I, from 0, is of the name 377 * I mod 1000. So the name N is that of the create 313 * N mod 1000.
pub(crate) fn thousand_script(alloc: Global) -> Result<String, Fail> {
    let mut script = String::from_str(alloc, "places 1 1\n")?;
    for create in 0..1000u64 {
        add_line(
            &mut script,
            "client 1 create /###\n",
            &[create * 377 % 1000],
        )?;
    }
    script.push_str("client 1 list /\n")?;
    for _ in 0..1000u64 {
        script.push_str("turns 1 1 1\n")?;
    }
    script.push_str("turns 1\n")?;
    Ok(script)
}

// The lines up to the list. The create I puts at position 3 * I by step number 3 * I + 1.
fn add_calls(text: &mut String) -> Result<(), Fail> {
    for create in 0..1000u64 {
        add_line(text, "c 1 # OK\n", &[create + 1])?;
    }
    text.push_str("c 1 1001 LIST 1000\n")?;
    for create in 0..1000u64 {
        let put = 3 * create;
        let name = create * 377 % 1000;
        let numbers = [put, put + 1, put + 2, name, put + 1, 64 * (put + 1)];
        add_line(text, "l 1 # # # create 0 ### = ok # f#\n", &numbers)?;
    }
    Ok(())
}

pub(crate) fn thousand_text(alloc: Global) -> Result<String, Fail> {
    let mut text = String::from_str(alloc, "cfs 1\nplaces 1 1\n")?;
    add_calls(&mut text)?;
    text.push_str("l 1 3000 3000 3000 list 0 = rows 1000\n")?;
    for name in 0..1000u64 {
        let time = 3 * (name * 313 % 1000) + 1;
        add_line(&mut text, "r ### f#\n", &[name, 64 * time])?;
    }
    text.push_str("t 0 / d0 children=1000 links=2 time=2998\n")?;
    for name in 0..1000u64 {
        let time = 3 * (name * 313 % 1000) + 1;
        let numbers = [name, 64 * time, time];
        add_line(&mut text, "t 0 ### f# size=0 time=#\n", &numbers)?;
    }
    text.push_str(
        "s steps=3001 calls=1001 unfinished=0 busy=0 forgets=0 owed=0 debts=0 marks=0 strays=0\n",
    )?;
    Ok(text)
}

#[test]
fn a_list_of_a_thousand_names(rt: HostRuntime) -> Result<(), Fail> {
    let script = thousand_script(rt.alloc())?;
    let text = thousand_text(rt.alloc())?;
    prints(&rt, "a thousand names", script.as_bytes(), text.as_bytes())
}
