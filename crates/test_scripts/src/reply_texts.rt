//! What is written for a short refutation, with numbers that no short script has.
use crate::fakes::Wire;
use crate::ran::Limits;
use scm_book::Reply;
use scm_orders::{Derivation, Fact, Line, Place, Rule};
use scm_sequences::NoMemory;
use scm_sessions::{Port, RunFault, write_reply};
use std::alloc::Global;
use std::sync::Arc;
use std::test::Fail;

/// What is written for a reply under no name.
fn line_of(alloc: Global, reply: &Reply) -> Result<Vec<u8>, RunFault> {
    let wire = Wire::new();
    let mut port = Port::new(Limits::none(2).writer(alloc, &wire));
    write_reply(&mut port, None, reply)?;
    Ok(port.into_inner().taken)
}

// One line with these hints, as a short refutation.
fn cycle_of_one(alloc: Global, fact: Fact, rule: Rule, hints: &[u32]) -> Result<Reply, NoMemory> {
    let (mut lines, mut all) = (Vec::new(alloc), Vec::new(alloc));
    all.push(9)?;
    for hint in hints {
        all.push(*hint)?;
    }
    let count = u32::try_from(hints.len()).unwrap_or(0);
    lines.push(Line {
        fact,
        rule,
        first: 1,
        count,
        block: None,
    })?;
    let derivation = Derivation { lines, hints: all };
    Ok(Reply::Cycle(Arc::new(alloc, derivation)?))
}

const FROM: Place = Place { process: 0, at: 3 };

const TO: Place = Place {
    process: 31,
    at: 1_000_000,
};

const BEFORE: Fact = Fact::Before { from: FROM, to: TO };

/// A fact, its rule, and the words for both.
const LINES: [(Fact, Rule, &str); 9] = [
    (BEFORE, Rule::Joined, "0.3<31.1000000:joined"),
    (BEFORE, Rule::AfterAll, "0.3<31.1000000:after-all"),
    (BEFORE, Rule::BeforeAll, "0.3<31.1000000:before-all"),
    (BEFORE, Rule::AfterSource, "0.3<31.1000000:after-source"),
    (
        Fact::Sees {
            write: FROM,
            read: TO,
        },
        Rule::Source,
        "0.3~31.1000000:source",
    ),
    (
        Fact::SeesFirst { read: TO },
        Rule::Source,
        "-~31.1000000:source",
    ),
    (
        Fact::Hidden {
            write: FROM,
            read: TO,
        },
        Rule::Hidden { by: TO },
        "0.3/31.1000000:hidden:31.1000000",
    ),
    (
        Fact::Unseen {
            write: FROM,
            read: TO,
        },
        Rule::Assumed,
        "0.3!31.1000000:assumed",
    ),
    (
        Fact::UnseenFirst { read: TO },
        Rule::Lemma { end: 4_294_967_295 },
        "-!31.1000000:lemma:4294967295",
    ),
];

#[test]
fn short_refutations_have_their_text(rt: HostRuntime) -> Result<(), Fail> {
    for (fact, rule, word) in LINES {
        for (hints, more) in [
            (&[][..], ""),
            (&[4, 17, 4_294_967_295][..], ":4:17:4294967295"),
        ] {
            let reply = cycle_of_one(rt.alloc(), fact, rule, hints)?;
            let line = line_of(rt.alloc(), &reply)?;
            let wanted = format!(in rt.alloc(); "? cycle 1 {word}{more}\n")?;
            assert_eq!(rt; line.as_slice(), wanted.as_bytes());
        }
    }
    Ok(())
}
