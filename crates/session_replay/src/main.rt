// Replays small session lists, one call to a line of standard input, and prints the list as the desk lister does. The lines come from
// runs of the Rust, and so does the list that is expected after each step.
//
//   I                    a fresh session                         N    a note-on: one event and one held gate more
//   V                    a new voice                             M    a note-off: one event more, one held gate less
//   C,voice              its off times are collected             W    one event more
//   F,voice              its off times are taken, one by one     Q,region,length,position    a region's sequence moves
//   G,voice,slot         its player's record is removed          Z,voice,gate    it is reset     D,voice,gate    it is closed
//   X,voice,slot         its player's sample has ended           P    the list is printed, as one step
//   S,voice,slot,region,group,off_by,note,vel,on_note,at,note_polyphony,polyphony,entered,trigger,lokey,hikey,lovel,hivel
//   J,what,place,value   one number of the session is set        8,regions,voice,count,slot..    the tests of its form are printed
//
// `-` is none; the group -1 is written as its 32 bits; `trigger` counts as the Rust's enum, attack first. Any other letter says nothing.
#![tactic(auto)]

mod call;
mod command;
mod fields;
mod show;

use command::{Command, Replay};
use fields::Fields;

// Every line, its first byte the letter, be it a newline. What cannot be written is lost, as in each program of the repository.
fn perform(rt: &impl Print, text: &[u8]) {
    let mut replay = Replay::new();
    let mut rest = text;
    for _ in 0..text.len() {
        let Some((letter, behind)) = rest.split_first() else {
            break;
        };
        let len = behind
            .iter()
            .position(|b| *b == b'\n')
            .unwrap_or(behind.len());
        if let Some(command) = Command::read(*letter, Fields::read(&behind[..len])) {
            let _ = replay.obey(rt, command);
        }
        rest = behind.get(len + 1..).unwrap_or(&[]);
    }
}

fn main(rt: HostRuntime) {
    let mut space = io::large_buffer();
    let n = io::read_full(0, &mut space);
    perform(&rt, &space[..n]);
}
