//! The bytes of requests that change the catalogue.

/// The hash that has no ancestor.
pub(crate) const NONE: &str = "2e1cfa82b035c26cbbbdae632cea070514eb8b773f616aaeaf668e2f0be8f10d";

/// A commit of a new table `m1` at `t1` of `main`.
pub(crate) const PUT_T1: &str =
    "POST /api/v2/trees/main/history/commit HTTP/1.1\r\nContent-Length: 202\r\n\r\n{\"commitMeta\":{\"message\":\"one\"},\"operations\":[{\"type\":\"PUT\",\"key\":{\"elements\":[\"t1\"]},\"content\":{\"type\":\"ICEBERG_TABLE\",\"metadataLocation\":\"m1\",\"snapshotId\":1,\"schemaId\":0,\"specId\":0,\"sortOrderId\":0}}]}";

/// The hash of that commit, where it is the first of the catalogue, made at the first second.
pub(crate) const FIRST: &str = "f92df14c291c55081a6374c5074b1394016591b1981cd32b3bddb20a3f86d5d4";

/// A commit of `m2` to the table of `PUT_T1`, where that is the first of the catalogue.
pub(crate) const PUT_T1_AGAIN: &str =
    "POST /api/v2/trees/main/history/commit HTTP/1.1\r\nContent-Length: 246\r\n\r\n{\"commitMeta\":{\"message\":\"one\"},\"operations\":[{\"type\":\"PUT\",\"key\":{\"elements\":[\"t1\"]},\"content\":{\"type\":\"ICEBERG_TABLE\",\"id\":\"00000000-0000-0001-0000-000000000000\",\"metadataLocation\":\"m2\",\"snapshotId\":1,\"schemaId\":0,\"specId\":0,\"sortOrderId\":0}}]}";

/// A commit of a new table `m1` at `t2` of `main`.
pub(crate) const PUT_T2: &str =
    "POST /api/v2/trees/main/history/commit HTTP/1.1\r\nContent-Length: 202\r\n\r\n{\"commitMeta\":{\"message\":\"one\"},\"operations\":[{\"type\":\"PUT\",\"key\":{\"elements\":[\"t2\"]},\"content\":{\"type\":\"ICEBERG_TABLE\",\"metadataLocation\":\"m1\",\"snapshotId\":1,\"schemaId\":0,\"specId\":0,\"sortOrderId\":0}}]}";

/// A commit of a new table `m2` at `t2` of `main`.
pub(crate) const PUT_M2: &str =
    "POST /api/v2/trees/main/history/commit HTTP/1.1\r\nContent-Length: 202\r\n\r\n{\"commitMeta\":{\"message\":\"one\"},\"operations\":[{\"type\":\"PUT\",\"key\":{\"elements\":[\"t2\"]},\"content\":{\"type\":\"ICEBERG_TABLE\",\"metadataLocation\":\"m2\",\"snapshotId\":1,\"schemaId\":0,\"specId\":0,\"sortOrderId\":0}}]}";

/// A commit of new tables at `t1` and `t2` of `main`.
pub(crate) const PUT_BOTH: &str =
    "POST /api/v2/trees/main/history/commit HTTP/1.1\r\nContent-Length: 357\r\n\r\n{\"commitMeta\":{\"message\":\"one\"},\"operations\":[{\"type\":\"PUT\",\"key\":{\"elements\":[\"t1\"]},\"content\":{\"type\":\"ICEBERG_TABLE\",\"metadataLocation\":\"m1\",\"snapshotId\":1,\"schemaId\":0,\"specId\":0,\"sortOrderId\":0}},{\"type\":\"PUT\",\"key\":{\"elements\":[\"t2\"]},\"content\":{\"type\":\"ICEBERG_TABLE\",\"metadataLocation\":\"m2\",\"snapshotId\":1,\"schemaId\":0,\"specId\":0,\"sortOrderId\":0}}]}";

/// A commit of a new table at `a1` of `main`.
pub(crate) const PUT_A1: &str =
    "POST /api/v2/trees/main/history/commit HTTP/1.1\r\nContent-Length: 201\r\n\r\n{\"commitMeta\":{\"message\":\"one\"},\"operations\":[{\"type\":\"PUT\",\"key\":{\"elements\":[\"a1\"]},\"content\":{\"type\":\"ICEBERG_TABLE\",\"metadataLocation\":\"p\",\"snapshotId\":1,\"schemaId\":0,\"specId\":0,\"sortOrderId\":0}}]}";

/// A commit of a new table at `a2` of `main`.
pub(crate) const PUT_A2: &str =
    "POST /api/v2/trees/main/history/commit HTTP/1.1\r\nContent-Length: 201\r\n\r\n{\"commitMeta\":{\"message\":\"one\"},\"operations\":[{\"type\":\"PUT\",\"key\":{\"elements\":[\"a2\"]},\"content\":{\"type\":\"ICEBERG_TABLE\",\"metadataLocation\":\"q\",\"snapshotId\":1,\"schemaId\":0,\"specId\":0,\"sortOrderId\":0}}]}";

/// A commit of a new table at `t2` of `dev`.
pub(crate) const PUT_ON_DEV: &str =
    "POST /api/v2/trees/dev/history/commit HTTP/1.1\r\nContent-Length: 201\r\n\r\n{\"commitMeta\":{\"message\":\"one\"},\"operations\":[{\"type\":\"PUT\",\"key\":{\"elements\":[\"t2\"]},\"content\":{\"type\":\"ICEBERG_TABLE\",\"metadataLocation\":\"x\",\"snapshotId\":1,\"schemaId\":0,\"specId\":0,\"sortOrderId\":0}}]}";

/// A branch `dev` at the head of `main`.
pub(crate) const CREATE_DEV: &str =
    "POST /api/v2/trees?name=dev&type=BRANCH HTTP/1.1\r\nContent-Length: 31\r\n\r\n{\"type\":\"BRANCH\",\"name\":\"main\"}";

/// A tag at the head of `main`.
pub(crate) const CREATE_TAG: &str =
    "POST /api/v2/trees?name=new&type=TAG HTTP/1.1\r\nContent-Length: 31\r\n\r\n{\"type\":\"BRANCH\",\"name\":\"main\"}";

/// The branch `dev` goes.
pub(crate) const DELETE_DEV: &str = "DELETE /api/v2/trees/dev HTTP/1.1\r\n\r\n";

/// `main` goes to where the catalogue began.
pub(crate) const ASSIGN_AWAY: &str =
    "PUT /api/v2/trees/main HTTP/1.1\r\nContent-Length: 93\r\n\r\n{\"type\":\"DETACHED\",\"hash\":\"2e1cfa82b035c26cbbbdae632cea070514eb8b773f616aaeaf668e2f0be8f10d\"}";

/// `main` goes to its first commit.
pub(crate) const ASSIGN_BACK: &str =
    "PUT /api/v2/trees/main HTTP/1.1\r\nContent-Length: 93\r\n\r\n{\"type\":\"DETACHED\",\"hash\":\"f92df14c291c55081a6374c5074b1394016591b1981cd32b3bddb20a3f86d5d4\"}";

/// A merge of the first commit of `main` into it.
pub(crate) const MERGE_FIRST: &str =
    "POST /api/v2/trees/main/history/merge HTTP/1.1\r\nContent-Length: 100\r\n\r\n{\"fromRefName\":\"main\",\"fromHash\":\"f92df14c291c55081a6374c5074b1394016591b1981cd32b3bddb20a3f86d5d4\"}";

/// A transplant of the first commit of `main` to it.
pub(crate) const TRANSPLANT_FIRST: &str =
    "POST /api/v2/trees/main/history/transplant HTTP/1.1\r\nContent-Length: 112\r\n\r\n{\"fromRefName\":\"main\",\"hashesToTransplant\":[\"f92df14c291c55081a6374c5074b1394016591b1981cd32b3bddb20a3f86d5d4\"]}";

/// A merge of `PUT_ON_DEV`, where it follows `CREATE_DEV`, into `main`.
pub(crate) const MERGE_DEV: &str =
    "POST /api/v2/trees/main/history/merge HTTP/1.1\r\nContent-Length: 99\r\n\r\n{\"fromRefName\":\"dev\",\"fromHash\":\"30d6a864b7210bb5aefc409c1542d80c315dc1b518d4eb53691c1ea7a5c64388\"}";

/// A transplant of `PUT_ON_DEV`, where it follows `CREATE_DEV`, to `main`.
pub(crate) const TRANSPLANT_DEV: &str =
    "POST /api/v2/trees/main/history/transplant HTTP/1.1\r\nContent-Length: 111\r\n\r\n{\"fromRefName\":\"dev\",\"hashesToTransplant\":[\"30d6a864b7210bb5aefc409c1542d80c315dc1b518d4eb53691c1ea7a5c64388\"]}";
