//! The bytes of commits and contents, each field with a value of its own, and what is told of a
//! commit. A value whose parts have variants is given to `drop` before the next way out: each way
//! out has its proof.

use cat_codes::fault::{FieldFault, NoMemory};
use cat_commit::{CommitMetaForm, MetaForm, id};
use cat_json::read::from_bytes;
use cat_json::write::to_text;
use cat_model::commit::Commit;
use cat_names::hash::Hash;
use std::alloc::Global;

/// Whether a commit has these bytes.
fn has_bytes(alloc: Global, commit: &Commit, want: &[u8]) -> bool {
    match cat_commit::to_bytes(alloc, commit) {
        Ok(bytes) => bytes.as_slice() == want,
        Err(_) => false,
    }
}

fn has_fields(commit: &Commit) -> bool {
    commit.generation == 7
        && commit.time.micros() == 8
        && commit.meta.message.as_str() == "one"
        && (commit.meta.authors.len(), commit.meta.signed.len()) == (1, 2)
        && commit.ops.len() == 2
}

/// Whether the commit of these bytes has its fields and is written as they are.
fn is_written_back(alloc: Global, bytes: &[u8]) -> bool {
    let Ok(commit) = cat_commit::from_bytes(alloc, bytes) else {
        return false;
    };
    let is_so = has_fields(&commit) && has_bytes(alloc, &commit, bytes);
    drop(commit);
    is_so
}

/// The fault of bytes that are no commit.
fn fault_of(alloc: Global, bytes: &[u8]) -> Option<FieldFault> {
    let commit = cat_commit::from_bytes(alloc, bytes);
    let fault = match &commit {
        Ok(_) => None,
        Err(fault) => Some(*fault),
    };
    drop(commit);
    fault
}

/// Whether a commit under its hash is told so.
fn is_told(alloc: Global, told: &(Hash, Commit), want: &str) -> Result<bool, NoMemory> {
    let text = to_text::<CommitMetaForm>(alloc, told)?;
    Ok(text.as_str() == want)
}

/// Whether the commit of these bytes is told so under its hash.
fn are_told(alloc: Global, bytes: &[u8], want: &str) -> bool {
    let Ok(commit) = cat_commit::from_bytes(alloc, bytes) else {
        return false;
    };
    let Ok(hash) = id(alloc, &commit) else {
        drop(commit);
        return false;
    };
    let told = (hash, commit);
    let is_so = is_told(alloc, &told, want) == Ok(true);
    drop(told);
    is_so
}

#[test]
fn a_commit_has_its_bytes_and_is_told_under_their_hash(rt: HostRuntime) {
    let alloc = rt.alloc();
    assert!(&rt; is_written_back(alloc, &FIELDS));
    assert!(&rt; are_told(alloc, COMMIT, COMMIT_TEXT));
    assert!(&rt; are_told(alloc, MERGE, MERGE_TEXT));
    assert!(&rt; fault_of(alloc, b"NC2") == Some(FieldFault::Range));
    assert!(&rt; fault_of(alloc, b"NC1") == Some(FieldFault::Short));
}

/// Whether the meta that is read of a text is told so.
fn is_meta_told(alloc: Global, text: &[u8], want: &str) -> bool {
    let Ok(meta) = from_bytes::<MetaForm>(alloc, text) else {
        return false;
    };
    let told = to_text::<MetaForm>(alloc, &meta);
    drop(meta);
    match told {
        Ok(told) => told.as_str() == want,
        Err(_) => false,
    }
}

/// Whether a number is written so.
fn is_number(alloc: Global, number: u64, want: &str) -> bool {
    match to_text::<u64>(alloc, &number) {
        Ok(text) => text.as_str() == want,
        Err(_) => false,
    }
}

#[test]
fn a_meta_and_great_numbers_are_read_and_written(rt: HostRuntime) {
    let alloc = rt.alloc();
    assert!(&rt; is_meta_told(alloc, META, META_TEXT));
    assert!(&rt; is_number(alloc, 18_446_744_073_709_551_615, "18446744073709551615"));
    let read = from_bytes::<u64>(alloc, b"18446744073709551615");
    assert!(&rt; read == Ok(18_446_744_073_709_551_615));
    assert!(&rt; from_bytes::<u32>(alloc, b"4294967295") == Ok(4_294_967_295));
    assert!(&rt; from_bytes::<u32>(alloc, b"4294967296").is_err());
}

/// Whether the content of these bytes is written as they are.
fn is_content(alloc: Global, bytes: &[u8]) -> bool {
    let Ok(content) = cat_content::from_bytes(alloc, bytes) else {
        return false;
    };
    let written = cat_content::to_bytes(alloc, &content);
    drop(content);
    match written {
        Ok(written) => written.as_slice() == bytes,
        Err(_) => false,
    }
}

#[test]
fn a_content_of_each_type_is_written_as_it_was_read(rt: HostRuntime) {
    for bytes in [&TABLE[..], &VIEW[..], &DELTA[..], &NAMESPACE[..], &UDF[..]] {
        assert!(&rt; is_content(rt.alloc(), bytes));
    }
}

/// A commit of generation 7 at 8 µs that deletes `n.t` and puts a Delta Lake table at `t1`.
const FIELDS: [u8; 217] = [
    78, 67, 49, 1, 2, 3, 4, 5, 6, 7, 8, 9, 10, 11, 12, 13, 14, 15, 16, 17, 18, 19, 20, 21, 22, 23,
    24, 25, 26, 27, 28, 29, 30, 31, 32, 1, 33, 34, 35, 36, 37, 38, 39, 40, 41, 42, 43, 44, 45, 46,
    47, 48, 49, 50, 51, 52, 53, 54, 55, 56, 57, 58, 59, 60, 61, 62, 63, 64, 0, 0, 0, 0, 0, 0, 0, 7,
    0, 0, 0, 0, 0, 0, 0, 8, 0, 0, 0, 3, 111, 110, 101, 0, 0, 0, 1, 0, 0, 0, 1, 97, 0, 0, 0, 2, 0,
    0, 0, 1, 115, 0, 0, 0, 1, 117, 0, 0, 0, 2, 0, 0, 0, 1, 107, 0, 0, 0, 1, 0, 0, 0, 1, 118, 0, 0,
    0, 1, 108, 0, 0, 0, 0, 1, 0, 0, 0, 0, 0, 0, 0, 9, 0, 0, 0, 2, 2, 0, 1, 110, 0, 1, 116, 0, 1, 0,
    2, 116, 49, 1, 3, 0, 0, 0, 0, 0, 0, 0, 1, 0, 0, 0, 0, 0, 0, 0, 2, 65, 66, 67, 68, 69, 70, 71,
    72, 73, 74, 75, 76, 77, 78, 79, 80, 81, 82, 83, 84, 85, 86, 87, 88, 89, 90, 91, 92, 93, 94, 95,
    96,
];

/// A table at `m1`: snapshot 1, schema 2, spec 3, sort order -4.
const TABLE: [u8; 43] = [
    1, 0, 0, 0, 0, 0, 0, 0, 1, 0, 0, 0, 0, 0, 0, 0, 2, 0, 0, 0, 2, 109, 49, 0, 0, 0, 0, 0, 0, 0, 1,
    0, 0, 0, 2, 0, 0, 0, 3, 255, 255, 255, 252,
];

/// A view at `v`: version -2, schema 3.
const VIEW: [u8; 34] = [
    2, 0, 0, 0, 0, 0, 0, 0, 1, 0, 0, 0, 0, 0, 0, 0, 0, 0, 0, 0, 1, 118, 255, 255, 255, 255, 255,
    255, 255, 254, 0, 0, 0, 3,
];

/// A Delta Lake table with the history `h`, the checkpoints `c` and an empty one, and the last `l`.
const DELTA: [u8; 45] = [
    3, 0, 0, 0, 0, 0, 0, 0, 1, 0, 0, 0, 0, 0, 0, 0, 0, 0, 0, 0, 1, 0, 0, 0, 1, 104, 0, 0, 0, 2, 0,
    0, 0, 1, 99, 0, 0, 0, 0, 1, 0, 0, 0, 1, 108,
];

/// The namespace `a` with the properties `k` and `l`.
const NAMESPACE: [u8; 49] = [
    4, 0, 0, 0, 0, 0, 0, 0, 1, 0, 0, 0, 0, 0, 0, 0, 0, 0, 0, 0, 1, 0, 0, 0, 1, 97, 0, 0, 0, 2, 0,
    0, 0, 1, 107, 0, 0, 0, 1, 118, 0, 0, 0, 1, 108, 0, 0, 0, 0,
];

/// The function at `m1` with the version `v1` and the signature `s1`.
const UDF: [u8; 35] = [
    5, 0, 0, 0, 0, 0, 0, 0, 1, 0, 0, 0, 0, 0, 0, 0, 0, 0, 0, 0, 2, 109, 49, 0, 0, 0, 2, 118, 49, 0,
    0, 0, 2, 115, 49,
];

const COMMIT: &[u8] =
    b"\x4e\x43\x31\x2e\x1c\xfa\x82\xb0\x35\xc2\x6c\xbb\xbd\xae\x63\x2c\xea\x07\x05\x14\xeb\x8b\x77\x3f\x61\x6a\xae\xaf\x66\x8e\x2f\x0b\xe8\xf1\x0d\x00\x00\x00\x00\x00\x00\x00\x00\x01\x00\x00\x00\x00\x00\x0f\x42\x40\x00\x00\x00\x03\x6f\x6e\x65\x00\x00\x00\x00\x00\x00\x00\x00\x00\x00\x00\x00\x00\x00\x00\x00\x01\x01\x00\x02\x74\x31\x01\x01\x00\x00\x00\x00\x00\x00\x00\x01\x00\x00\x00\x00\x00\x00\x00\x00\xfc\xbe\x22\x8a\xdc\x7d\xb2\xe1\xca\x9c\x94\xf6\x62\xf8\x6c\x55\x25\x03\x8d\xe6\x26\x43\xeb\x70\xd5\xd7\x29\x0d\x91\xfb\xab\x0a";

// with the SHA-256 of the bytes above
const COMMIT_TEXT: &str =
    r#"{"allProperties":{},"allSignedOffBy":[],"authors":[],"commitTime":"1970-01-01T00:00:01.000000Z","hash":"f92df14c291c55081a6374c5074b1394016591b1981cd32b3bddb20a3f86d5d4","message":"one","parentCommitHashes":["2e1cfa82b035c26cbbbdae632cea070514eb8b773f616aaeaf668e2f0be8f10d"]}"#;

// parents H("empty") and 0, 1, 2, .. 31; no changes
const MERGE: &[u8] =
    b"\x4e\x43\x31\x2e\x1c\xfa\x82\xb0\x35\xc2\x6c\xbb\xbd\xae\x63\x2c\xea\x07\x05\x14\xeb\x8b\x77\x3f\x61\x6a\xae\xaf\x66\x8e\x2f\x0b\xe8\xf1\x0d\x01\x00\x01\x02\x03\x04\x05\x06\x07\x08\x09\x0a\x0b\x0c\x0d\x0e\x0f\x10\x11\x12\x13\x14\x15\x16\x17\x18\x19\x1a\x1b\x1c\x1d\x1e\x1f\x00\x00\x00\x00\x00\x00\x00\x02\x00\x00\x00\x00\x00\x1e\x84\x80\x00\x00\x00\x03\x74\x77\x6f\x00\x00\x00\x01\x00\x00\x00\x01\x61\x00\x00\x00\x00\x00\x00\x00\x00\x01\x00\x00\x00\x00\x00\x00\x00\x05\x00\x00\x00\x00";

// with the SHA-256 of the bytes above
const MERGE_TEXT: &str =
    r#"{"allProperties":{},"allSignedOffBy":[],"authorTime":"1970-01-01T00:00:00.000005Z","authors":["a"],"commitTime":"1970-01-01T00:00:02.000000Z","hash":"96be1ec11cd836af5aaca993eca4b19ff86dbc5dd6036024adb3dbbf49ab97f7","message":"two","parentCommitHashes":["2e1cfa82b035c26cbbbdae632cea070514eb8b773f616aaeaf668e2f0be8f10d","000102030405060708090a0b0c0d0e0f101112131415161718191a1b1c1d1e1f"]}"#;

const META: &[u8] =
    br#"{"message":"m","authors":["a"],"allSignedOffBy":null,"allProperties":{"q":[],"p":["1","2"]},"authorTime":"2024-02-03T04:05:06.1234567Z"}"#;

const META_TEXT: &str =
    r#"{"allProperties":{"p":["1","2"],"q":[]},"allSignedOffBy":[],"authorTime":"2024-02-03T04:05:06.123456Z","authors":["a"],"message":"m"}"#;
