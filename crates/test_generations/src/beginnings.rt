//! The folders after a beginning that is interrupted at each of its calls.
use crate::folders::{Failure, MemoryFolders, StoredFile};
use pc_generations::{
    BASE_NAME, Generations, LOG_NAME, MOST_GENERATIONS, begin_generation, generation_name,
    greatest_generation, latest_generation, lost_generation, number_in, remove_older,
};
use pc_types::Refusal;
use std::alloc::Global;
use std::test::Fail;

// The number of calls that a beginning makes over what is given: the new generation is made, its two files are written, and an older
// one goes.
const CALLS: usize = 4;

fn add(files: &mut Vec<StoredFile>, alloc: Global, number: u32, name: &[u8]) -> Result<(), Fail> {
    files.push(StoredFile {
        number,
        name: Vec::from_slice(alloc, name)?,
        text: Vec::from_slice(alloc, name)?,
    })?;
    Ok(())
}

// Generations 3 and 4, and the remains of an interrupted beginning of 5.
fn given(rt: &HostRuntime, calls: usize, failure: Failure) -> Result<MemoryFolders, Fail> {
    let alloc = rt.alloc();
    let mut files = Vec::new(alloc);
    for number in [3, 4] {
        add(&mut files, alloc, number, BASE_NAME)?;
        add(&mut files, alloc, number, LOG_NAME)?;
        add(&mut files, alloc, number, b"part-00001.pcp")?;
    }
    add(&mut files, alloc, 5, LOG_NAME)?;
    add(&mut files, alloc, 5, b"part-00001.pcp")?;
    Ok(MemoryFolders {
        alloc,
        files,
        calls,
        failure,
    })
}

// The generation has the three files that it was given.
fn is_as_given(folders: &MemoryFolders, number: u32) -> bool {
    let (base, log) = (
        folders.text(number, BASE_NAME),
        folders.text(number, LOG_NAME),
    );
    folders.count(number) == 3 && base == Some(BASE_NAME) && log == Some(LOG_NAME)
}

// The generation has this text under the name.
fn has_text(folders: &MemoryFolders, number: u32, name: &[u8], text: &[u8]) -> bool {
    match folders.text(number, name) {
        Some(found) => found == text,
        None => false,
    }
}

// The next generation begins, and then older ones go but for one before it; whether it has begun, and whether they are gone.
fn begin(folders: &mut MemoryFolders, alloc: Global, latest: Option<u32>) -> (bool, bool) {
    match begin_generation(folders, latest, b"pairs", b"header") {
        Ok(number) => (true, remove_older(alloc, folders, number, 1).is_ok()),
        Err(_) => (false, false),
    }
}

#[test]
fn each_cut_leaves_one_generation_whole(rt: HostRuntime) -> Result<(), Fail> {
    for failure in [Failure::Undone, Failure::Done] {
        for calls in 0..CALLS + 1 {
            let mut folders = given(&rt, calls, failure)?;
            let latest = latest_generation(rt.alloc(), &folders)?;
            assert_eq!(rt; latest, Some(4));
            let (has_begun, are_gone) = begin(&mut folders, rt.alloc(), latest);
            assert_eq!(rt; has_begun, calls >= 3);
            assert_eq!(rt; are_gone, calls == CALLS);
            assert!(rt; is_as_given(&folders, 4));
            let counts = latest_generation(rt.alloc(), &folders)?;
            if counts == Some(5) {
                assert!(rt; has_text(&folders, 5, BASE_NAME, b"pairs"));
                assert!(rt; has_text(&folders, 5, LOG_NAME, b"header"));
                assert_eq!(rt; folders.count(5), 2);
            } else {
                assert_eq!(rt; counts, Some(4));
                assert!(rt; is_as_given(&folders, 3));
            }
            assert_eq!(rt; folders.count(3) == 0, calls == CALLS);
        }
    }
    Ok(())
}

#[test]
fn first_generation_begins(rt: HostRuntime) -> Result<(), Fail> {
    let alloc = rt.alloc();
    let mut folders = MemoryFolders {
        alloc,
        files: Vec::new(alloc),
        calls: 3,
        failure: Failure::Undone,
    };
    assert_eq!(rt; latest_generation(alloc, &folders)?, None);
    assert_eq!(rt;
        begin_generation(&mut folders, None, b"pairs", b"header"),
        Ok(1)
    );
    assert_eq!(rt; latest_generation(alloc, &folders)?, Some(1));
    let last = Some(MOST_GENERATIONS);
    let begun = begin_generation(&mut folders, last, b"pairs", b"header");
    assert_eq!(rt; begun, Err(Refusal::Full));
    assert_eq!(rt; latest_generation(alloc, &folders)?, Some(1));
    Ok(())
}

// A log of a header of 20 bytes, and one byte of an entry.
const LOG_WITH_ENTRY: &[u8] = b"header of 20 bytes..e";

#[test]
fn log_with_entries_is_never_cleared(rt: HostRuntime) -> Result<(), Fail> {
    let alloc = rt.alloc();
    let mut folders = given(&rt, 10, Failure::Undone)?;
    assert_eq!(rt; lost_generation(alloc, &folders, Some(4))?, None);
    assert_eq!(rt; greatest_generation(alloc, &folders)?, Some(5));
    folders.write(5, LOG_NAME, LOG_WITH_ENTRY)?;
    assert_eq!(rt; lost_generation(alloc, &folders, Some(4))?, Some(5));
    assert_eq!(rt; lost_generation(alloc, &folders, Some(5))?, None);
    let refused = begin_generation(&mut folders, Some(4), b"pairs", b"header");
    assert_eq!(rt; refused, Err(Refusal::Device));
    assert!(rt; has_text(&folders, 5, LOG_NAME, LOG_WITH_ENTRY));
    let begun = begin_generation(&mut folders, Some(5), b"pairs", b"header");
    assert_eq!(rt; begun, Ok(6));
    assert!(rt; has_text(&folders, 5, LOG_NAME, LOG_WITH_ENTRY));
    Ok(())
}

// The numbers of those of the generations 1 to 6 that are left if this many are kept before number 6.
fn kept(rt: &HostRuntime, keep: u32) -> Result<Vec<u32>, Fail> {
    let alloc = rt.alloc();
    let mut files = Vec::new(alloc);
    for number in 1..7 {
        add(&mut files, alloc, number, BASE_NAME)?;
    }
    let mut folders = MemoryFolders {
        alloc,
        files,
        calls: 6,
        failure: Failure::Undone,
    };
    remove_older(alloc, &mut folders, 6, keep)?;
    let mut left = Vec::new(alloc);
    for number in 1..7 {
        if folders.count(number) == 1 {
            left.push(number)?;
        }
    }
    Ok(left)
}

#[test]
fn as_many_are_kept_as_asked(rt: HostRuntime) -> Result<(), Fail> {
    assert_eq!(rt; kept(&rt, 1)?.as_slice(), [5, 6].as_slice());
    assert_eq!(rt; kept(&rt, 3)?.as_slice(), [3, 4, 5, 6].as_slice());
    assert_eq!(rt; kept(&rt, 6)?.as_slice(), [1, 2, 3, 4, 5, 6].as_slice());
    assert_eq!(rt;
        kept(&rt, MOST_GENERATIONS)?.as_slice(),
        [1, 2, 3, 4, 5, 6].as_slice()
    );
    Ok(())
}

#[test]
fn names_of_generations_are_read_back(rt: HostRuntime) -> Result<(), Fail> {
    for number in [0, 1, 7, 10, 99, 12_345, 1_234_567, 9_999_999] {
        assert_eq!(rt; number_in(&generation_name(number)), Some(number));
    }
    assert_eq!(rt; generation_name(7).as_slice(), b"gen-0000007".as_slice());
    let others: [&[u8]; 7] = [
        b"",
        b"gen-",
        b"gen-7",
        b"gen-00000007",
        b"gen-000000x",
        b"Gen-0000007",
        b"lock",
    ];
    for name in others {
        assert_eq!(rt; number_in(name), None);
    }
    Ok(())
}
