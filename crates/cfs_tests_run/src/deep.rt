//! A path of as many components as a path may have.

use crate::counted::add_line;
use crate::tables::prints;
use std::alloc::Global;
use std::test::Fail;

// One client makes directory after directory, each named `d` and in the one before it, and looks the last one up.
fn script(alloc: Global) -> Result<String, Fail> {
    let mut script = String::from_str(alloc, "places 1 1\n")?;
    let mut path = String::new(alloc);
    for _ in 0..64 {
        path.push_str("/d")?;
        writeln!(script, "client 1 mkdir {path}")?;
    }
    writeln!(script, "client 1 lookup {path}\nturns 1*2272")?;
    Ok(script)
}

// The look-ups of all of these directories but the first, in which each lies in the one before it. The position behind
// them.
fn add_look_ups(text: &mut String, dirs: &[u64], first: u64) -> Result<u64, Fail> {
    let mut at = first;
    for i in 1..dirs.len() {
        let numbers = [at, at, at, dirs[i - 1], dirs[i]];
        add_line(text, "l 1 # # # lookup # d = node d#\n", &numbers)?;
        at = at.saturating_add(1);
    }
    Ok(at)
}

// The lines of the history, and the numbers of the directories. All steps are client 1's at one shard, so the step at a
// position has the number above it, and a directory is 64 times the number of its put.
fn add_history(text: &mut String, dirs: &mut Vec<u64>) -> Result<(), Fail> {
    let mut at = 0u64;
    for _ in 0..64 {
        at = add_look_ups(text, dirs.as_slice(), at)?;
        let number = at.saturating_add(1);
        let dir = number.saturating_mul(64);
        let last = at.saturating_add(2);
        let [.., parent] = dirs.as_slice() else {
            return Ok(());
        };
        let numbers = [at, number, last, *parent, number, dir];
        add_line(text, "l 1 # # # mkdir # d = ok # d#\n", &numbers)?;
        dirs.push(dir)?;
        at = last.saturating_add(1);
    }
    add_look_ups(text, dirs.as_slice(), at)?;
    Ok(())
}

// The names of the tree: each directory but the last has one name, and the time of that one's mkdir.
fn add_tree(text: &mut String, dirs: &[u64]) -> Result<(), Fail> {
    text.push_str("t 0 / d0 children=1 links=3 time=1\n")?;
    for i in 1..dirs.len() {
        let (parent, dir) = (dirs[i - 1], dirs[i]);
        match dirs.get(i + 1) {
            Some(child) => {
                let numbers = [parent, dir, *child / 64];
                add_line(text, "t # d d# children=1 links=3 time=#\n", &numbers)?
            }
            None => {
                let numbers = [parent, dir, dir / 64];
                add_line(text, "t # d d# children=0 links=2 time=#\n", &numbers)?
            }
        }
    }
    Ok(())
}

// The k-th mkdir makes k + 2 steps, the look-up at the end 64: 64 * 65 / 2 + 2 * 64 + 64 steps. The calls are 64 mkdirs
// and 64 * 63 / 2 + 64 look-ups. The put of the last mkdir is at position 2,205.
fn text(alloc: Global) -> Result<String, Fail> {
    let mut text = String::from_str(alloc, "cfs 1\nplaces 1 1\n")?;
    for command in 1..=64u64 {
        add_line(&mut text, "c 1 # OK\n", &[command])?;
    }
    text.push_str("c 1 65 NODE d141184\n")?;
    let mut dirs = Vec::from_slice(alloc, &[0u64])?;
    add_history(&mut text, &mut dirs)?;
    add_tree(&mut text, dirs.as_slice())?;
    text.push_str(
        "s steps=2272 calls=2144 unfinished=0 busy=0 forgets=0 owed=0 debts=0 marks=0 strays=0\n",
    )?;
    Ok(text)
}

#[test]
fn a_path_of_64_components(rt: HostRuntime) -> Result<(), Fail> {
    let script = script(rt.alloc())?;
    let text = text(rt.alloc())?;
    prints(&rt, "64 components", script.as_bytes(), text.as_bytes())
}
