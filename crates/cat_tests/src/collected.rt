//! Requests of sessions beside a collection, and what they are told.

/// Four commits to `main`, in the seconds 1 to 4, that put the table `t1` there and give it new
/// values: `m1` to `m4`.
pub(crate) const FOUR: &str =
    "POST /api/v2/trees/main/history/commit HTTP/1.1\r\nContent-Length: 202\r\n\r\n{\"commitMeta\":{\"message\":\"one\"},\"operations\":[{\"type\":\"PUT\",\"key\":{\"elements\":[\"t1\"]},\"content\":{\"type\":\"ICEBERG_TABLE\",\"metadataLocation\":\"m1\",\"snapshotId\":1,\"schemaId\":0,\"specId\":0,\"sortOrderId\":0}}]}POST /api/v2/trees/main/history/commit HTTP/1.1\r\nContent-Length: 246\r\n\r\n{\"commitMeta\":{\"message\":\"one\"},\"operations\":[{\"type\":\"PUT\",\"key\":{\"elements\":[\"t1\"]},\"content\":{\"type\":\"ICEBERG_TABLE\",\"id\":\"00000000-0000-0001-0000-000000000000\",\"metadataLocation\":\"m2\",\"snapshotId\":1,\"schemaId\":0,\"specId\":0,\"sortOrderId\":0}}]}POST /api/v2/trees/main/history/commit HTTP/1.1\r\nContent-Length: 246\r\n\r\n{\"commitMeta\":{\"message\":\"one\"},\"operations\":[{\"type\":\"PUT\",\"key\":{\"elements\":[\"t1\"]},\"content\":{\"type\":\"ICEBERG_TABLE\",\"id\":\"00000000-0000-0001-0000-000000000000\",\"metadataLocation\":\"m3\",\"snapshotId\":1,\"schemaId\":0,\"specId\":0,\"sortOrderId\":0}}]}POST /api/v2/trees/main/history/commit HTTP/1.1\r\nContent-Length: 246\r\n\r\n{\"commitMeta\":{\"message\":\"one\"},\"operations\":[{\"type\":\"PUT\",\"key\":{\"elements\":[\"t1\"]},\"content\":{\"type\":\"ICEBERG_TABLE\",\"id\":\"00000000-0000-0001-0000-000000000000\",\"metadataLocation\":\"m4\",\"snapshotId\":1,\"schemaId\":0,\"specId\":0,\"sortOrderId\":0}}]}";

/// What they are told.
pub(crate) const FOUR_TOLD: &str =
    "HTTP/1.1 200 OK\r\nContent-Type: application/json\r\nCatalogue-Place: 1\r\nContent-Length: 219\r\n\r\n{\"addedContents\":[{\"contentId\":\"00000000-0000-0001-0000-000000000000\",\"key\":{\"elements\":[\"t1\"]}}],\"targetBranch\":{\"hash\":\"f92df14c291c55081a6374c5074b1394016591b1981cd32b3bddb20a3f86d5d4\",\"name\":\"main\",\"type\":\"BRANCH\"}}HTTP/1.1 200 OK\r\nContent-Type: application/json\r\nCatalogue-Place: 2\r\nContent-Length: 141\r\n\r\n{\"addedContents\":[],\"targetBranch\":{\"hash\":\"d64500950f8a2bc53b5a7924439a204aa18ad71808988331edcf91098cc306db\",\"name\":\"main\",\"type\":\"BRANCH\"}}HTTP/1.1 200 OK\r\nContent-Type: application/json\r\nCatalogue-Place: 3\r\nContent-Length: 141\r\n\r\n{\"addedContents\":[],\"targetBranch\":{\"hash\":\"b320e0c30db4780c430c204f90cdbfd17a94b7e9540248d697207ca3f30c6b03\",\"name\":\"main\",\"type\":\"BRANCH\"}}HTTP/1.1 200 OK\r\nContent-Type: application/json\r\nCatalogue-Place: 4\r\nContent-Length: 141\r\n\r\n{\"addedContents\":[],\"targetBranch\":{\"hash\":\"6a39e22989ecee71958c359faba605cde52c75a815754c4397a76bb3b6384fc4\",\"name\":\"main\",\"type\":\"BRANCH\"}}";

/// A second collection, a checkpoint, and a branch `keep` where `t1` was `m2`.
pub(crate) const MEANWHILE: &str =
    "POST /gc/v1/sweep HTTP/1.1\r\nContent-Length: 21\r\n\r\n{\"defaultCutoff\":\"1\"}POST /gc/v1/checkpoint HTTP/1.1\r\n\r\nPOST /api/v2/trees?name=keep&type=BRANCH HTTP/1.1\r\nContent-Length: 105\r\n\r\n{\"type\":\"BRANCH\",\"name\":\"main\",\"hash\":\"d64500950f8a2bc53b5a7924439a204aa18ad71808988331edcf91098cc306db\"}";

/// The first collection was opened at place 4, and is open, which refuses both; the branch is made.
pub(crate) const MEANWHILE_TOLD: &str =
    "HTTP/1.1 409 Conflict\r\nContent-Type: application/json\r\nCatalogue-Place: 4\r\nContent-Length: 129\r\n\r\n{\"errorCode\":\"SWEEP_OPEN\",\"errorDetails\":{\"place\":4,\"type\":\"SWEEP_OPEN\"},\"message\":\"sweep open\",\"reason\":\"Conflict\",\"status\":409}HTTP/1.1 409 Conflict\r\nContent-Type: application/json\r\nCatalogue-Place: 4\r\nContent-Length: 129\r\n\r\n{\"errorCode\":\"SWEEP_OPEN\",\"errorDetails\":{\"place\":4,\"type\":\"SWEEP_OPEN\"},\"message\":\"sweep open\",\"reason\":\"Conflict\",\"status\":409}HTTP/1.1 200 OK\r\nContent-Type: application/json\r\nCatalogue-Place: 5\r\nContent-Length: 119\r\n\r\n{\"reference\":{\"hash\":\"d64500950f8a2bc53b5a7924439a204aa18ad71808988331edcf91098cc306db\",\"name\":\"keep\",\"type\":\"BRANCH\"}}";

/// A collection that keeps the head of each chain.
pub(crate) const COLLECT: &str =
    "POST /gc/v1/sweep HTTP/1.1\r\nContent-Length: 21\r\n\r\n{\"defaultCutoff\":\"1\"}";

/// It was opened at place 4 and settled behind the new branch: `m2` is shown there, `m3` a draft
/// has named, and `m4` is the head's.
pub(crate) const COLLECTED: &str =
    "HTTP/1.1 200 OK\r\nContent-Type: application/json\r\nCatalogue-Place: 6\r\nContent-Length: 38\r\n\r\n{\"kept\":3,\"openedPlace\":4,\"removed\":1}";

/// A merge of the commit of `main` where `t1` was `m3` into `keep`.
pub(crate) const MERGE: &str =
    "POST /api/v2/trees/keep/history/merge HTTP/1.1\r\nContent-Length: 100\r\n\r\n{\"fromRefName\":\"main\",\"fromHash\":\"b320e0c30db4780c430c204f90cdbfd17a94b7e9540248d697207ca3f30c6b03\"}";

/// It goes on behind the collection.
pub(crate) const MERGED: &str =
    "HTTP/1.1 200 OK\r\nContent-Type: application/json\r\nCatalogue-Place: 7\r\nContent-Length: 488\r\n\r\n{\"commonAncestor\":\"d64500950f8a2bc53b5a7924439a204aa18ad71808988331edcf91098cc306db\",\"details\":[{\"key\":{\"elements\":[\"t1\"]},\"mergeBehavior\":\"NORMAL\"}],\"effectiveTargetHash\":\"d64500950f8a2bc53b5a7924439a204aa18ad71808988331edcf91098cc306db\",\"resultantTargetHash\":\"915ba8e60e9369a66e441d8643d00ce44bc9c18765fbcc85ad9775f7b1e11581\",\"targetBranch\":{\"hash\":\"915ba8e60e9369a66e441d8643d00ce44bc9c18765fbcc85ad9775f7b1e11581\",\"name\":\"keep\",\"type\":\"BRANCH\"},\"wasApplied\":true,\"wasSuccessful\":true}";

/// Reads of all four values, and a branch where `t1` was `m1`.
pub(crate) const AFTER: &str =
    "GET /api/v2/trees/keep/contents/t1 HTTP/1.1\r\n\r\nGET /api/v2/trees/main@f92df14c291c55081a6374c5074b1394016591b1981cd32b3bddb20a3f86d5d4/contents/t1 HTTP/1.1\r\n\r\nGET /api/v2/trees/main@d64500950f8a2bc53b5a7924439a204aa18ad71808988331edcf91098cc306db/contents/t1 HTTP/1.1\r\n\r\nGET /api/v2/trees/main/contents/t1 HTTP/1.1\r\n\r\nPOST /api/v2/trees?name=old&type=BRANCH HTTP/1.1\r\nContent-Length: 105\r\n\r\n{\"type\":\"BRANCH\",\"name\":\"main\",\"hash\":\"f92df14c291c55081a6374c5074b1394016591b1981cd32b3bddb20a3f86d5d4\"}";

/// All but `m1` are there.
pub(crate) const AFTER_TOLD: &str =
    "HTTP/1.1 200 OK\r\nContent-Type: application/json\r\nCatalogue-Place: 7\r\nContent-Length: 286\r\n\r\n{\"content\":{\"id\":\"00000000-0000-0001-0000-000000000000\",\"metadataLocation\":\"m3\",\"schemaId\":0,\"snapshotId\":1,\"sortOrderId\":0,\"specId\":0,\"type\":\"ICEBERG_TABLE\"},\"effectiveReference\":{\"hash\":\"915ba8e60e9369a66e441d8643d00ce44bc9c18765fbcc85ad9775f7b1e11581\",\"name\":\"keep\",\"type\":\"BRANCH\"}}HTTP/1.1 404 Not Found\r\nContent-Type: application/json\r\nCatalogue-Place: 7\r\nContent-Length: 95\r\n\r\n{\"errorCode\":\"CONTENT_NOT_FOUND\",\"message\":\"content expired\",\"reason\":\"Not Found\",\"status\":404}HTTP/1.1 200 OK\r\nContent-Type: application/json\r\nCatalogue-Place: 7\r\nContent-Length: 286\r\n\r\n{\"content\":{\"id\":\"00000000-0000-0001-0000-000000000000\",\"metadataLocation\":\"m2\",\"schemaId\":0,\"snapshotId\":1,\"sortOrderId\":0,\"specId\":0,\"type\":\"ICEBERG_TABLE\"},\"effectiveReference\":{\"hash\":\"d64500950f8a2bc53b5a7924439a204aa18ad71808988331edcf91098cc306db\",\"name\":\"main\",\"type\":\"BRANCH\"}}HTTP/1.1 200 OK\r\nContent-Type: application/json\r\nCatalogue-Place: 7\r\nContent-Length: 286\r\n\r\n{\"content\":{\"id\":\"00000000-0000-0001-0000-000000000000\",\"metadataLocation\":\"m4\",\"schemaId\":0,\"snapshotId\":1,\"sortOrderId\":0,\"specId\":0,\"type\":\"ICEBERG_TABLE\"},\"effectiveReference\":{\"hash\":\"6a39e22989ecee71958c359faba605cde52c75a815754c4397a76bb3b6384fc4\",\"name\":\"main\",\"type\":\"BRANCH\"}}HTTP/1.1 409 Conflict\r\nContent-Type: application/json\r\nCatalogue-Place: 7\r\nContent-Length: 175\r\n\r\n{\"errorCode\":\"REFERENCE_CONFLICT\",\"errorDetails\":{\"keys\":[{\"elements\":[\"t1\"]}],\"openedPlace\":7,\"type\":\"EXPIRED\"},\"message\":\"contents expired\",\"reason\":\"Conflict\",\"status\":409}";

/// A table is put on `main`, a branch is made where it is and the table removed from `main`; the
/// branch gets another table, loses the first, is moved to `main` and removed.
pub(crate) const FIRST_ROUND: &str =
    "POST /api/v2/trees/main/history/commit HTTP/1.1\r\nContent-Length: 201\r\n\r\n{\"commitMeta\":{\"message\":\"one\"},\"operations\":[{\"type\":\"PUT\",\"key\":{\"elements\":[\"a1\"]},\"content\":{\"type\":\"ICEBERG_TABLE\",\"metadataLocation\":\"p\",\"snapshotId\":1,\"schemaId\":0,\"specId\":0,\"sortOrderId\":0}}]}POST /api/v2/trees?name=first&type=BRANCH HTTP/1.1\r\nContent-Length: 31\r\n\r\n{\"type\":\"BRANCH\",\"name\":\"main\"}POST /api/v2/trees/main/history/commit HTTP/1.1\r\nContent-Length: 91\r\n\r\n{\"commitMeta\":{\"message\":\"one\"},\"operations\":[{\"type\":\"DELETE\",\"key\":{\"elements\":[\"a1\"]}}]}POST /api/v2/trees/first/history/commit HTTP/1.1\r\nContent-Length: 201\r\n\r\n{\"commitMeta\":{\"message\":\"one\"},\"operations\":[{\"type\":\"PUT\",\"key\":{\"elements\":[\"a2\"]},\"content\":{\"type\":\"ICEBERG_TABLE\",\"metadataLocation\":\"q\",\"snapshotId\":1,\"schemaId\":0,\"specId\":0,\"sortOrderId\":0}}]}POST /api/v2/trees/first/history/commit HTTP/1.1\r\nContent-Length: 91\r\n\r\n{\"commitMeta\":{\"message\":\"one\"},\"operations\":[{\"type\":\"DELETE\",\"key\":{\"elements\":[\"a1\"]}}]}PUT /api/v2/trees/first HTTP/1.1\r\nContent-Length: 31\r\n\r\n{\"type\":\"BRANCH\",\"name\":\"main\"}DELETE /api/v2/trees/first HTTP/1.1\r\n\r\n";

/// The same of other tables and another branch.
pub(crate) const SECOND_ROUND: &str =
    "POST /api/v2/trees/main/history/commit HTTP/1.1\r\nContent-Length: 201\r\n\r\n{\"commitMeta\":{\"message\":\"one\"},\"operations\":[{\"type\":\"PUT\",\"key\":{\"elements\":[\"b1\"]},\"content\":{\"type\":\"ICEBERG_TABLE\",\"metadataLocation\":\"p\",\"snapshotId\":1,\"schemaId\":0,\"specId\":0,\"sortOrderId\":0}}]}POST /api/v2/trees?name=second&type=BRANCH HTTP/1.1\r\nContent-Length: 31\r\n\r\n{\"type\":\"BRANCH\",\"name\":\"main\"}POST /api/v2/trees/main/history/commit HTTP/1.1\r\nContent-Length: 91\r\n\r\n{\"commitMeta\":{\"message\":\"one\"},\"operations\":[{\"type\":\"DELETE\",\"key\":{\"elements\":[\"b1\"]}}]}POST /api/v2/trees/second/history/commit HTTP/1.1\r\nContent-Length: 201\r\n\r\n{\"commitMeta\":{\"message\":\"one\"},\"operations\":[{\"type\":\"PUT\",\"key\":{\"elements\":[\"b2\"]},\"content\":{\"type\":\"ICEBERG_TABLE\",\"metadataLocation\":\"q\",\"snapshotId\":1,\"schemaId\":0,\"specId\":0,\"sortOrderId\":0}}]}POST /api/v2/trees/second/history/commit HTTP/1.1\r\nContent-Length: 91\r\n\r\n{\"commitMeta\":{\"message\":\"one\"},\"operations\":[{\"type\":\"DELETE\",\"key\":{\"elements\":[\"b1\"]}}]}PUT /api/v2/trees/second HTTP/1.1\r\nContent-Length: 31\r\n\r\n{\"type\":\"BRANCH\",\"name\":\"main\"}DELETE /api/v2/trees/second HTTP/1.1\r\n\r\n";

/// The last commits of `main`, with their contents as far as these are there.
pub(crate) const READ: &str =
    "GET /api/v2/trees/main/history?fetch=ALL&max-records=20 HTTP/1.1\r\n\r\n";

/// A collection, which keeps two commits of one of the branches; that read; and a table that is put
/// on `main` and goes again.
pub(crate) const COLLECT_AND_READ: &str =
    "POST /gc/v1/sweep HTTP/1.1\r\nContent-Length: 66\r\n\r\n{\"defaultCutoff\":\"1\",\"cutoffs\":[{\"pattern\":\"first\",\"cutoff\":\"2\"}]}GET /api/v2/trees/main/history?fetch=ALL&max-records=20 HTTP/1.1\r\n\r\nPOST /api/v2/trees/main/history/commit HTTP/1.1\r\nContent-Length: 201\r\n\r\n{\"commitMeta\":{\"message\":\"one\"},\"operations\":[{\"type\":\"PUT\",\"key\":{\"elements\":[\"c1\"]},\"content\":{\"type\":\"ICEBERG_TABLE\",\"metadataLocation\":\"r\",\"snapshotId\":1,\"schemaId\":0,\"specId\":0,\"sortOrderId\":0}}]}POST /api/v2/trees/main/history/commit HTTP/1.1\r\nContent-Length: 91\r\n\r\n{\"commitMeta\":{\"message\":\"one\"},\"operations\":[{\"type\":\"DELETE\",\"key\":{\"elements\":[\"c1\"]}}]}";
