//! The words of a call, and the command that they are.

use host_block::BlockSize;
use host_words::{Command, WordsError, read_words};
use std::alloc::Global;
use std::test::Fail;

// Words that are of no command, with a bar between two words.
const BAD: [&str; 60] = [
    "",
    "run",
    "walk|base.img",
    "Run|base.img",
    "--dry|run|base.img",
    "--|run|base.img",
    "help",
    "run|base.img|--help",
    "run|base.img|-h",
    "run|base.img|--version",
    "run|base.img|other.img",
    "run||--dry",
    "list|",
    "list",
    "list|base.img|--dry",
    "make|1|1",
    "make|1|1|2|3",
    "make|1|1|2|--block|512",
    "load|base.img|1|1",
    "load|base.img|1|1|2|--dry",
    "load|base.img|1|1|2|--cut",
    // Options given twice.
    "run|base.img|--block|512|--block|512",
    "run|base.img|--block=512|--block|512",
    "run|base.img|--workers|1|--workers=2",
    "run|base.img|--depth|1|--depth|1",
    "run|base.img|--dry|--dry",
    "run|base.img|--cut|--cut",
    "run|base.img|--steps|--steps",
    // Options without their value, or with one that they don't take.
    "run|base.img|--block",
    "run|base.img|--block=",
    "run|base.img|--workers",
    "run|base.img|--depth",
    "run|--depth|base.img",
    "run|--depth|-|base.img",
    "run|--block|--|512|base.img",
    "run|--block|--dry|base.img",
    "run|--depth|-1|base.img",
    "run|base.img|--dry=1",
    "run|base.img|--dry=",
    "run|base.img|--cut=yes",
    "run|base.img|--steps|1",
    // After `--` no word is an option.
    "run|base.img|--|--dry",
    "run|--|base.img|--",
    "run|--|base.img|-x",
    // Single hyphens.
    "run|-d|base.img",
    "run|-1",
    "run|-block|512|base.img",
    // Numbers.
    "run|base.img|--block|513",
    "run|base.img|--block|8192",
    "run|base.img|--workers|0",
    "run|base.img|--workers|17",
    "run|base.img|--depth|129",
    "run|base.img|--depth|0x10",
    "run|base.img|--depth|+1",
    "run|base.img|--depth| 1",
    "run|base.img|--depth|100000000000000000000000000001",
    "make|2147483648|1|1",
    "make|1|17|1",
    "make|1|1|2049",
    "make|1|0|1",
];

fn is_bad(alloc: Global, text: &str) -> Result<bool, Fail> {
    let words: Vec<&str> = text.split('|').collect(alloc)?;
    Ok(read_words(alloc, words.as_slice()) == Err(WordsError::BadWords))
}

#[test]
fn words_of_no_command(rt: HostRuntime) -> Result<(), Fail> {
    for text in BAD {
        assert!(rt; is_bad(rt.alloc(), text)?, "{text}");
    }
    Ok(())
}

#[test]
fn no_words(rt: HostRuntime) {
    assert!(rt; read_words(rt.alloc(), &[]) == Err(WordsError::BadWords));
}

#[test]
fn each_command(rt: HostRuntime) -> Result<(), Fail> {
    let alloc = rt.alloc();
    let run = [
        "run",
        "--block=4096",
        "--workers",
        "16",
        "base.img",
        "--dry",
        "--cut",
        "--depth=0128",
        "--steps",
    ];
    let list = ["list", "--", "--dry"];
    let make = ["make", "2147483647", "016", "2048"];
    let load = ["load", "-", "--block", "1024", "0", "1", "--depth=1", "1"];
    let block = BlockSize::new(4_096).ok_or("size")?;
    let plays = Command::Run {
        image: "base.img",
        block,
        workers: Some(16),
        depth: Some(128),
        dry: true,
        cut: true,
        steps: true,
    };
    assert!(rt; read_words(alloc, run.as_slice()) == Ok(plays));
    let block = BlockSize::new(512).ok_or("size")?;
    let lists = Command::List {
        image: "--dry",
        block,
    };
    assert!(rt; read_words(alloc, list.as_slice()) == Ok(lists));
    let makes = Command::Make {
        seed: 2_147_483_647,
        sessions: 16,
        requests: 2_048,
    };
    assert!(rt; read_words(alloc, make.as_slice()) == Ok(makes));
    let block = BlockSize::new(1_024).ok_or("size")?;
    let loads = Command::Load {
        image: "-",
        seed: 0,
        sessions: 1,
        requests: 1,
        block,
        workers: None,
        depth: Some(1),
    };
    assert!(rt; read_words(alloc, load.as_slice()) == Ok(loads));
    Ok(())
}
