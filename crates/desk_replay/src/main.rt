// Many desk scripts in one input, parted by lines `=`, each performed from a fresh session. What they print is parted likewise, so that it
// can be held to what the Rust printed (docs/COMPARISON.md).
#![tactic(auto)]

use desk_script::perform::replay;

fn main() {
    replay();
}
