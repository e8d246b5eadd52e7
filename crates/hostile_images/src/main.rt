//! What replay, the checker and the planner answer on images that no operation makes.
//!
//! Standard input lists the images, and the file `stdin` says how. The file `stdout` has what the independent reference
//! answers on the images of that file. `tests/test_hostile_images.py` lists 1,200 more, from noise to sound images with
//! a few bytes damaged.
#![tactic(auto)]

mod listed;

use listed::print_image;
use std::io;
use std::test::Fail;

fn main(rt: HostRuntime) -> Result<(), Fail> {
    let list = io::read_to_string(rt.alloc(), rt.stdin())?;
    for line in list.lines() {
        // Empty lines and comments name no image.
        if !line.is_empty() && !line.starts_with('#') {
            print_image(&rt, line)?;
        }
    }
    Ok(())
}
