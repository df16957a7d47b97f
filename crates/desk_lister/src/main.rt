// The desk lister: 01's added program, over standard input and output.
#![tactic(auto)]

use desk_script::perform::perform;
use lister::feed::{Feed, Scripts};

fn main() {
    perform(&mut Feed::new(Scripts::One));
}
