//! One image of a list, and what is answered on it.

use crash_model::steps::{Act, Step};
use disk_image::Image;
use fs_check::{faults, is_clean};
use inode_fs::plan;
use journal_replay::replay;
use script_text::read_script;
use std::alloc::Global;
use std::rt::Runtime;
use std::test::Fail;

/// Prints what is answered on the image of a line.
pub fn print_image<R: Runtime + AllocGlobal>(rt: &R, line: &str) -> Result<(), Fail> {
    let (name, rest) = line.split_once(';').ok_or("a name, then a disk")?;
    println!(rt; "image {name}")?;
    let mut fields = rest.split(';');
    let mut image = formatted(rt.alloc(), fields.next().ok_or("a disk")?)?;
    for field in fields {
        let field = field.trim();
        if field.starts_with(|c: char| c.is_ascii_digit()) {
            put_bytes(rt.alloc(), &mut image, field)?;
        } else {
            print_plan(rt, &image, field)?;
        }
    }
    print_faults(rt, &image)?;
    print_replayed(rt, &image)
}

/// The formatted disk of a field: how many blocks it has, and how many of them its journal.
fn formatted(heap: Global, field: &str) -> Result<Image<Global>, Fail> {
    let mut words = field.split_whitespace();
    let blocks = words.next().ok_or("blocks")?.parse()?;
    let journal = words.next().ok_or("a journal")?.parse()?;
    Ok(Image::formatted(heap, blocks, journal)?)
}

/// Puts bytes into an image: a block, an offset, hexadecimal digits, and how many times if more than once.
fn put_bytes(heap: Global, image: &mut Image<Global>, field: &str) -> Result<(), Fail> {
    let mut words = field.split_whitespace();
    let block: usize = words.next().ok_or("a block")?.parse()?;
    let mut offset: usize = words.next().ok_or("an offset")?.parse()?;
    let bytes = hex::decode(heap, words.next().ok_or("bytes")?)?;
    let times: usize = words.next().unwrap_or("1").parse()?;
    for _ in 0..times {
        if block >= image.blocks() || offset > 128 || bytes.len() > 128 - offset {
            return Err(Fail::new("bytes outside their block"));
        }
        image.put(block, offset, bytes.as_slice());
        offset += bytes.len();
    }
    Ok(())
}

/// Prints the changes that an operation plans on an image, or why it is refused.
fn print_plan<R: Runtime + AllocGlobal>(
    rt: &R,
    image: &Image<Global>,
    operation: &str,
) -> Result<(), Fail> {
    let text = format!(in rt.alloc(); "start\n{operation}\n")?;
    let script = read_script(rt.alloc(), text.as_bytes())?;
    let Some(
        Step {
            act: Act::Do(op),
            ..
        },
    ) = script.traced.first()
    else {
        return Err(Fail::new("no operation"));
    };
    match plan(image, op) {
        Ok(changes) => {
            for change in changes.as_slice() {
                let (role, new) = (
                    change.role.name(),
                    hex::encode(rt.alloc(), change.new.as_slice())?,
                );
                println!(rt;
                    "{operation}: {role} {} {} {new}",
                    change.block, change.offset
                )?;
            }
        }
        Err(refusal) => println!(rt; "{operation}: {refusal}")?,
    }
    Ok(())
}

/// Prints the blocks that replay changes, with their bytes after it, and the faults of the image then.
fn print_replayed<R: Runtime + AllocGlobal>(rt: &R, image: &Image<Global>) -> Result<(), Fail> {
    let mut after = image.try_copy()?;
    replay(&mut after);
    for block in 0..image.blocks().min(after.blocks()) {
        if image.block(block) != after.block(block) {
            let bytes = hex::encode(rt.alloc(), after.block(block))?;
            println!(rt; "replay block {block}: {bytes}")?;
        }
    }
    println!(rt; "after replay")?;
    print_faults(rt, &after)
}

/// Prints the faults of an image, and that it is clean where it is.
fn print_faults<R: Runtime + AllocGlobal>(rt: &R, image: &Image<Global>) -> Result<(), Fail> {
    if is_clean(image) {
        println!(rt; "clean")?;
    }
    for fault in &faults(rt.alloc(), image)? {
        println!(rt; "fault {fault}")?;
    }
    Ok(())
}
