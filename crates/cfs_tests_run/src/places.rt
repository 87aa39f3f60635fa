//! Many shards and stores, and which of them a node is put in.
ghost use Rattle.std.specs.Prelude.{◌<◌, ◌≤◌, ◌^◌};

use crate::counted::add_line;
use crate::tables::prints;
use std::alloc::Global;
use std::process::Abort;
use std::test::Fail;

// Fails unless the text has each of these lines.
fn has_lines(rt: &impl Abort, text: &str, lines: &[&str]) {
    for line in lines {
        assert!(rt; text.lines().any(|other| other == *line), "no {line}");
    }
}

// Each client makes a file and a directory, one step of all clients after the other, and ends.
fn full_script(alloc: Global) -> Result<String, Fail> {
    let mut script = String::from_str(alloc, "places 64 64\n")?;
    for client in 1..=32u64 {
        add_line(
            &mut script,
            "client # create /f##\nclient # mkdir /d##\n",
            &[client, client, client, client],
        )?;
    }
    for _ in 0..7u64 {
        script.push_str(
            "turns 1 2 3 4 5 6 7 8 9 10 11 12 13 14 15 16 17 18 19 20 21 22 23 24 25 26 27 28 29 30 31 32\n",
        )?;
    }
    Ok(script)
}

// The number of client k's directory. Its file is in store k by step number 1. The row of it is set by step number
// k + 1, the file is settled by k + 2, and so the directory is in shard k + 1 by k + 3.
fn directory_of(k: u64) -> u64
    requires { k ≤ 32 }
{
    64 * (k + 3) + k + 1
}

fn full_text(alloc: Global) -> Result<String, Fail> {
    let mut text = String::from_str(alloc, "cfs 1\nplaces 64 64\n")?;
    for k in 1..=32u64 {
        add_line(&mut text, "c # 1 OK\nc # 2 OK\n", &[k, k])?;
    }
    for k in 1..=32u64 {
        let numbers = [k, k - 1, 31 + k, 63 + k, k, 64 + k];
        add_line(&mut text, "l # # # # create 0 f## = ok 1 f#\n", &numbers)?;
    }
    for k in 1..=32u64 {
        let numbers = [k, 95 + k, 127 + k, 159 + k, k, k + 3, directory_of(k)];
        add_line(&mut text, "l # # # # mkdir 0 d## = ok # d#\n", &numbers)?;
    }
    text.push_str("t 0 / d0 children=64 links=34 time=35\n")?;
    for k in 1..=32u64 {
        let numbers = [k, directory_of(k), k + 3];
        add_line(
            &mut text,
            "t 0 d## d# children=0 links=2 time=#\n",
            &numbers,
        )?;
    }
    for k in 1..=32u64 {
        add_line(&mut text, "t 0 f## f# size=0 time=1\n", &[k, 64 + k])?;
    }
    text.push_str(
        "s steps=224 calls=64 unfinished=0 busy=0 forgets=0 owed=0 debts=0 marks=0 strays=0\n",
    )?;
    Ok(text)
}

#[test]
fn of_32_clients_each_has_its_own_shard_and_store(rt: HostRuntime) -> Result<(), Fail> {
    let script = full_script(rt.alloc())?;
    let text = full_text(rt.alloc())?;
    let lines = [
        "l 1 0 32 64 create 0 f01 = ok 1 f65",
        "l 32 31 63 95 create 0 f32 = ok 1 f96",
        "l 1 96 128 160 mkdir 0 d01 = ok 4 d258",
        "l 32 127 159 191 mkdir 0 d32 = ok 35 d2273",
    ];
    has_lines(&rt, text.as_str(), &lines);
    prints(
        &rt,
        "a shard and a store each",
        script.as_bytes(),
        text.as_bytes(),
    )
}

// Of 200 puts of client 1, counted from 0, the even ones are files and the odd ones directories.
fn puts_script(alloc: Global) -> Result<String, Fail> {
    let mut script = String::from_str(alloc, "places 3 2\n")?;
    for pair in 0..100u64 {
        add_line(
            &mut script,
            "client 1 create /n###\nclient 1 mkdir /n###\n",
            &[2 * pair, 2 * pair + 1],
        )?;
    }
    for _ in 0..200u64 {
        script.push_str("turns 1 1 1\n")?;
    }
    script.push_str("turns 1\n")?;
    Ok(script)
}

// The put of this count is the client's step number 3 * put + 1, and makes a node of this number in the shard or store 0.
fn node_of(put: u64) -> u64
    requires { put < 200 }
    ensures { result < 2 ^ 32 }
{
    64 * (3 * put + 1)
}

// The lines of a file's put and of the next put, a directory's. A put goes to the store or the shard 1 + put, counted round.
fn add_pair(text: &mut String, put: u64) -> Result<(), Fail>
    requires { put < 199 }
{
    let file = node_of(put) + (1 + put) % 2;
    let numbers = [3 * put, 3 * put + 1, 3 * put + 2, put, 3 * put + 1, file];
    add_line(text, "l 1 # # # create 0 n### = ok # f#\n", &numbers)?;
    let next = put + 1;
    let dir = node_of(next) + (1 + next) % 3;
    let numbers = [
        3 * next,
        3 * next + 1,
        3 * next + 2,
        next,
        3 * next + 1,
        dir,
    ];
    add_line(text, "l 1 # # # mkdir 0 n### = ok # d#\n", &numbers)
}

// The names of these two in the tree.
fn add_names(text: &mut String, put: u64) -> Result<(), Fail>
    requires { put < 199 }
{
    let file = node_of(put) + (1 + put) % 2;
    let numbers = [put, file, 3 * put + 1];
    add_line(text, "t 0 n### f# size=0 time=#\n", &numbers)?;
    let next = put + 1;
    let dir = node_of(next) + (1 + next) % 3;
    let numbers = [next, dir, 3 * next + 1];
    add_line(text, "t 0 n### d# children=0 links=2 time=#\n", &numbers)
}

fn puts_text(alloc: Global) -> Result<String, Fail> {
    let mut text = String::from_str(alloc, "cfs 1\nplaces 3 2\n")?;
    for number in 1..=200u64 {
        add_line(&mut text, "c 1 # OK\n", &[number])?;
    }
    for pair in 0..100u64 {
        add_pair(&mut text, 2 * pair)?;
    }
    text.push_str("t 0 / d0 children=200 links=102 time=598\n")?;
    for pair in 0..100u64 {
        add_names(&mut text, 2 * pair)?;
    }
    text.push_str(
        "s steps=601 calls=200 unfinished=0 busy=0 forgets=0 owed=0 debts=0 marks=0 strays=0\n",
    )?;
    Ok(text)
}

#[test]
fn puts_are_counted_over_files_and_directories(rt: HostRuntime) -> Result<(), Fail> {
    let script = puts_script(rt.alloc())?;
    let text = puts_text(rt.alloc())?;
    let lines = [
        "t 0 n000 f65 size=0 time=1",
        "t 0 n001 d258 children=0 links=2 time=4",
        "t 0 n195 d37505 children=0 links=2 time=586",
        "t 0 n196 f37697 size=0 time=589",
        "t 0 n197 d37888 children=0 links=2 time=592",
        "t 0 n198 f38081 size=0 time=595",
        "t 0 n199 d38274 children=0 links=2 time=598",
    ];
    has_lines(&rt, text.as_str(), &lines);
    prints(
        &rt,
        "puts of both kinds",
        script.as_bytes(),
        text.as_bytes(),
    )
}
