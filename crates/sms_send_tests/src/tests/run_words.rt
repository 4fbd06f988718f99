//! The words of the subcommands over a run that was sent, and the jobs that they ask for.

use super::asked::want_read;
use super::words::words_of;

/// Words, and the file of the job, or the text of the fault.
const READ: [(&str, &str); 19] = [
    ("bill --config c --journal j", "bill of j"),
    ("bill --verbose --journal=j --config=c", "bill of j"),
    ("bill --config c", "fault: words"),
    ("bill --journal j", "fault: words"),
    ("bill --config c --report r", "fault: words"),
    ("bill --config c --journal j --trial", "fault: words"),
    ("bill --config c --journal j k", "fault: words"),
    ("doubtful --config c --journal j", "doubts of j"),
    ("doubtful --journal=- --config=-", "doubts of -"),
    ("doubtful --config c", "fault: words"),
    ("doubtful --journal j", "fault: words"),
    ("doubtful", "fault: words"),
    ("bills --config c --journal j", "fault: words"),
    ("audit --config c --report r", "audit of r"),
    ("audit --report=r --verbose --config=c", "audit of r"),
    ("audit --config c", "fault: words"),
    ("audit --report r", "fault: words"),
    ("audit --config c --report r --accounts", "fault: words"),
    ("audit --config c --journal j", "fault: words"),
];

#[test]
fn reads_the_words_over_a_run(rt: HostRuntime) {
    for (line, wanted) in &READ {
        let words = words_of(&rt, line);
        want_read(&rt, words.as_slice(), wanted);
    }
}
