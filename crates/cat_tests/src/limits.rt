//! Stores whose limits are low, and a log that can't be kept.

use crate::asking::{Outcome, come_to};
use crate::requests::{
    CREATE_DEV, CREATE_TAG, DELETE_DEV, MERGE_DEV, MERGE_FIRST, PUT_BOTH, PUT_ON_DEV, PUT_T1,
    PUT_T1_AGAIN, TRANSPLANT_DEV, TRANSPLANT_FIRST,
};
use cat_model::limits::{Limits, Quantity};
use std::alloc::Global;
use std::process::Abort;
use std::sync::Wait;

#[test]
fn a_limit_of_one_lets_one_pass(rt: HostRuntime) {
    let all = Limits::program();
    let table = [
        (Limits { log: 1, ..all }, Quantity::Log),
        (Limits { commits: 1, ..all }, Quantity::Commits),
        (Limits { keys: 1, ..all }, Quantity::Keys),
        (Limits { contents: 1, ..all }, Quantity::Contents),
        (Limits { drafts: 1, ..all }, Quantity::Drafts),
    ];
    for (limits, which) in table {
        let changes = [
            (PUT_T1, Outcome::Accepted(1)),
            (PUT_T1_AGAIN, Outcome::Full(which, 1, Some(1))),
        ];
        assert!(&rt;
            come_to(&rt, rt.alloc(), limits, &[], &changes),
            "{which:?}"
        );
    }
}

fn full(which: Quantity) -> Outcome {
    Outcome::Full(which, 1, Some(0))
}

#[test]
fn the_puts_of_a_commit_count_together(rt: HostRuntime) {
    let all = Limits::program();
    let two = Limits { keys: 2, ..all };
    let none = Limits {
        log: 0,
        commits: 0,
        ..all
    };
    let one_of_both = Limits {
        keys: 1,
        contents: 1,
        ..all
    };
    let table = [
        (Limits { keys: 1, ..all }, full(Quantity::Keys)),
        (two, Outcome::Accepted(1)),
        (Limits { contents: 1, ..all }, full(Quantity::Contents)),
        (Limits { contents: 2, ..all }, Outcome::Accepted(1)),
        (one_of_both, full(Quantity::Keys)),
        (none, Outcome::Full(Quantity::Log, 0, Some(0))),
    ];
    for (limits, outcome) in table {
        assert!(&rt; come_to(&rt, rt.alloc(), limits, &[], &[(PUT_BOTH, outcome)]));
    }
}

/// What a commit, a merge, a transplant, a new branch and its removal come to where one draft
/// number is left, and so much room in the log.
#[test]
fn what_opens_a_draft_finds_none_left_before_the_log_is_full(rt: HostRuntime) {
    let all = Limits::program();
    let spent = Outcome::Full(Quantity::Drafts, 1, Some(1));
    let full = Outcome::Full(Quantity::Log, 1, Some(1));
    for (log, created, deleted) in [
        (100, Outcome::Accepted(2), Outcome::Accepted(3)),
        // there is no `dev` to remove
        (1, full, Outcome::Other),
    ] {
        let limits = Limits {
            drafts: 1,
            log,
            ..all
        };
        let changes = [
            (PUT_T1, Outcome::Accepted(1)),
            (MERGE_FIRST, spent),
            (TRANSPLANT_FIRST, spent),
            (CREATE_DEV, created),
            (DELETE_DEV, deleted),
        ];
        assert!(&rt; come_to(&rt, rt.alloc(), limits, &[], &changes), "{log}");
    }
}

#[test]
fn a_call_whose_entry_is_not_kept_is_a_fault_and_then_all_is_down(rt: HostRuntime) {
    let limits = Limits::program();
    for text in [PUT_T1, MERGE_DEV, TRANSPLANT_DEV, CREATE_TAG, DELETE_DEV] {
        let changes = [
            (CREATE_DEV, Outcome::Accepted(1)),
            (PUT_ON_DEV, Outcome::Accepted(2)),
            (text, Outcome::Fault(Some(2))),
            (text, Outcome::Down(1, Some(2))),
        ];
        assert!(&rt; come_to(&rt, rt.alloc(), limits, &[3], &changes), "{text}");
    }
}

/// Whether a branch, a commit on it, one on `main`, the merge of the first into it and a tag come
/// to these outcomes.
fn meet_limits<R: Abort + Wait>(
    rt: &R,
    alloc: Global,
    limits: Limits,
    wanted: [Outcome; 5],
) -> bool {
    let changes = [
        (CREATE_DEV, wanted[0]),
        (PUT_ON_DEV, wanted[1]),
        (PUT_T1, wanted[2]),
        (MERGE_DEV, wanted[3]),
        (CREATE_TAG, wanted[4]),
    ];
    come_to(rt, alloc, limits, &[], &changes)
}

fn at(place: u32) -> Outcome {
    Outcome::Accepted(place)
}

fn full_at(which: Quantity, number: u64, place: u32) -> Outcome {
    Outcome::Full(which, number, Some(place))
}

// All five make two references beside `main`, five entries, three commits, two keys on `main` and
// two contents, and take three draft numbers. Where there is no `dev` its commit and its merge are
// refused.
#[test]
fn limits_that_are_just_met_let_all_pass_and_one_less_does_not(rt: HostRuntime) {
    let just = Limits {
        references: 3,
        log: 5,
        commits: 3,
        keys: 2,
        contents: 2,
        names: 0,
        drafts: 3,
    };
    let references = Limits {
        references: 2,
        ..just
    };
    let alone = Limits {
        references: 1,
        ..just
    };
    let log = Limits { log: 4, ..just };
    let commits = Limits { commits: 2, ..just };
    let keys = Limits { keys: 1, ..just };
    let contents = Limits {
        contents: 1,
        ..just
    };
    let drafts = Limits { drafts: 2, ..just };
    let no_tag = full_at(Quantity::References, 2, 4);
    let no_branch = full_at(Quantity::References, 1, 0);
    let no_second = full_at(Quantity::References, 1, 1);
    let no_entry = full_at(Quantity::Log, 4, 4);
    let no_commit = full_at(Quantity::Commits, 2, 3);
    let no_key = full_at(Quantity::Keys, 1, 3);
    let no_content = full_at(Quantity::Contents, 1, 2);
    let no_draft = full_at(Quantity::Drafts, 2, 3);
    for (limits, wanted) in [
        (just, [at(1), at(2), at(3), at(4), at(5)]),
        (references, [at(1), at(2), at(3), at(4), no_tag]),
        (
            alone,
            [no_branch, Outcome::Other, at(1), Outcome::Other, no_second],
        ),
        (log, [at(1), at(2), at(3), at(4), no_entry]),
        (commits, [at(1), at(2), at(3), no_commit, at(4)]),
        (keys, [at(1), at(2), at(3), no_key, at(4)]),
        (contents, [at(1), at(2), no_content, at(3), at(4)]),
        (drafts, [at(1), at(2), at(3), no_draft, at(4)]),
    ] {
        assert!(&rt; meet_limits(&rt, rt.alloc(), limits, wanted));
    }
}
