// The block lister: whole blocks as bits, over standard input and output.
#![tactic(auto)]

use block_script::perform::perform;
use lister::feed::{Feed, Scripts};

fn main() {
    perform(&mut Feed::new(Scripts::One));
}
