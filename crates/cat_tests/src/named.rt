//! Requests of sessions that give an open sweep names, and what they are told.

/// The first of the four commits is merged into `main`, which has it, twice: the two drafts name
/// it.
pub(crate) const ONE_NAME: &str =
    "POST /api/v2/trees/main/history/merge HTTP/1.1\r\nContent-Length: 100\r\n\r\n{\"fromRefName\":\"main\",\"fromHash\":\"f92df14c291c55081a6374c5074b1394016591b1981cd32b3bddb20a3f86d5d4\"}POST /api/v2/trees/main/history/merge HTTP/1.1\r\nContent-Length: 100\r\n\r\n{\"fromRefName\":\"main\",\"fromHash\":\"f92df14c291c55081a6374c5074b1394016591b1981cd32b3bddb20a3f86d5d4\"}";

/// Nothing is applied, and no entry is made.
pub(crate) const ONE_NAME_TOLD: &str =
    "HTTP/1.1 200 OK\r\nContent-Type: application/json\r\nCatalogue-Place: 4\r\nContent-Length: 437\r\n\r\n{\"commonAncestor\":\"f92df14c291c55081a6374c5074b1394016591b1981cd32b3bddb20a3f86d5d4\",\"details\":[],\"effectiveTargetHash\":\"6a39e22989ecee71958c359faba605cde52c75a815754c4397a76bb3b6384fc4\",\"resultantTargetHash\":\"6a39e22989ecee71958c359faba605cde52c75a815754c4397a76bb3b6384fc4\",\"targetBranch\":{\"hash\":\"6a39e22989ecee71958c359faba605cde52c75a815754c4397a76bb3b6384fc4\",\"name\":\"main\",\"type\":\"BRANCH\"},\"wasApplied\":false,\"wasSuccessful\":true}HTTP/1.1 200 OK\r\nContent-Type: application/json\r\nCatalogue-Place: 4\r\nContent-Length: 437\r\n\r\n{\"commonAncestor\":\"f92df14c291c55081a6374c5074b1394016591b1981cd32b3bddb20a3f86d5d4\",\"details\":[],\"effectiveTargetHash\":\"6a39e22989ecee71958c359faba605cde52c75a815754c4397a76bb3b6384fc4\",\"resultantTargetHash\":\"6a39e22989ecee71958c359faba605cde52c75a815754c4397a76bb3b6384fc4\",\"targetBranch\":{\"hash\":\"6a39e22989ecee71958c359faba605cde52c75a815754c4397a76bb3b6384fc4\",\"name\":\"main\",\"type\":\"BRANCH\"},\"wasApplied\":false,\"wasSuccessful\":true}";

/// The first is merged, and the second: two names.
pub(crate) const TWO_NAMES: &str =
    "POST /api/v2/trees/main/history/merge HTTP/1.1\r\nContent-Length: 100\r\n\r\n{\"fromRefName\":\"main\",\"fromHash\":\"f92df14c291c55081a6374c5074b1394016591b1981cd32b3bddb20a3f86d5d4\"}POST /api/v2/trees/main/history/merge HTTP/1.1\r\nContent-Length: 100\r\n\r\n{\"fromRefName\":\"main\",\"fromHash\":\"d64500950f8a2bc53b5a7924439a204aa18ad71808988331edcf91098cc306db\"}";

/// Nothing is applied.
pub(crate) const TWO_NAMES_TOLD: &str =
    "HTTP/1.1 200 OK\r\nContent-Type: application/json\r\nCatalogue-Place: 4\r\nContent-Length: 437\r\n\r\n{\"commonAncestor\":\"f92df14c291c55081a6374c5074b1394016591b1981cd32b3bddb20a3f86d5d4\",\"details\":[],\"effectiveTargetHash\":\"6a39e22989ecee71958c359faba605cde52c75a815754c4397a76bb3b6384fc4\",\"resultantTargetHash\":\"6a39e22989ecee71958c359faba605cde52c75a815754c4397a76bb3b6384fc4\",\"targetBranch\":{\"hash\":\"6a39e22989ecee71958c359faba605cde52c75a815754c4397a76bb3b6384fc4\",\"name\":\"main\",\"type\":\"BRANCH\"},\"wasApplied\":false,\"wasSuccessful\":true}HTTP/1.1 200 OK\r\nContent-Type: application/json\r\nCatalogue-Place: 4\r\nContent-Length: 437\r\n\r\n{\"commonAncestor\":\"d64500950f8a2bc53b5a7924439a204aa18ad71808988331edcf91098cc306db\",\"details\":[],\"effectiveTargetHash\":\"6a39e22989ecee71958c359faba605cde52c75a815754c4397a76bb3b6384fc4\",\"resultantTargetHash\":\"6a39e22989ecee71958c359faba605cde52c75a815754c4397a76bb3b6384fc4\",\"targetBranch\":{\"hash\":\"6a39e22989ecee71958c359faba605cde52c75a815754c4397a76bb3b6384fc4\",\"name\":\"main\",\"type\":\"BRANCH\"},\"wasApplied\":false,\"wasSuccessful\":true}";

/// Then the fourth, whose change `main` has, is transplanted to it: three names.
pub(crate) const THREE_NAMES: &str =
    "POST /api/v2/trees/main/history/merge HTTP/1.1\r\nContent-Length: 100\r\n\r\n{\"fromRefName\":\"main\",\"fromHash\":\"f92df14c291c55081a6374c5074b1394016591b1981cd32b3bddb20a3f86d5d4\"}POST /api/v2/trees/main/history/merge HTTP/1.1\r\nContent-Length: 100\r\n\r\n{\"fromRefName\":\"main\",\"fromHash\":\"d64500950f8a2bc53b5a7924439a204aa18ad71808988331edcf91098cc306db\"}POST /api/v2/trees/main/history/transplant HTTP/1.1\r\nContent-Length: 112\r\n\r\n{\"fromRefName\":\"main\",\"hashesToTransplant\":[\"6a39e22989ecee71958c359faba605cde52c75a815754c4397a76bb3b6384fc4\"]}";

/// Nothing is applied.
pub(crate) const THREE_NAMES_TOLD: &str =
    "HTTP/1.1 200 OK\r\nContent-Type: application/json\r\nCatalogue-Place: 4\r\nContent-Length: 437\r\n\r\n{\"commonAncestor\":\"f92df14c291c55081a6374c5074b1394016591b1981cd32b3bddb20a3f86d5d4\",\"details\":[],\"effectiveTargetHash\":\"6a39e22989ecee71958c359faba605cde52c75a815754c4397a76bb3b6384fc4\",\"resultantTargetHash\":\"6a39e22989ecee71958c359faba605cde52c75a815754c4397a76bb3b6384fc4\",\"targetBranch\":{\"hash\":\"6a39e22989ecee71958c359faba605cde52c75a815754c4397a76bb3b6384fc4\",\"name\":\"main\",\"type\":\"BRANCH\"},\"wasApplied\":false,\"wasSuccessful\":true}HTTP/1.1 200 OK\r\nContent-Type: application/json\r\nCatalogue-Place: 4\r\nContent-Length: 437\r\n\r\n{\"commonAncestor\":\"d64500950f8a2bc53b5a7924439a204aa18ad71808988331edcf91098cc306db\",\"details\":[],\"effectiveTargetHash\":\"6a39e22989ecee71958c359faba605cde52c75a815754c4397a76bb3b6384fc4\",\"resultantTargetHash\":\"6a39e22989ecee71958c359faba605cde52c75a815754c4397a76bb3b6384fc4\",\"targetBranch\":{\"hash\":\"6a39e22989ecee71958c359faba605cde52c75a815754c4397a76bb3b6384fc4\",\"name\":\"main\",\"type\":\"BRANCH\"},\"wasApplied\":false,\"wasSuccessful\":true}HTTP/1.1 200 OK\r\nContent-Type: application/json\r\nCatalogue-Place: 4\r\nContent-Length: 405\r\n\r\n{\"details\":[{\"key\":{\"elements\":[\"t1\"]},\"mergeBehavior\":\"NORMAL\"}],\"effectiveTargetHash\":\"6a39e22989ecee71958c359faba605cde52c75a815754c4397a76bb3b6384fc4\",\"resultantTargetHash\":\"6a39e22989ecee71958c359faba605cde52c75a815754c4397a76bb3b6384fc4\",\"targetBranch\":{\"hash\":\"6a39e22989ecee71958c359faba605cde52c75a815754c4397a76bb3b6384fc4\",\"name\":\"main\",\"type\":\"BRANCH\"},\"wasApplied\":false,\"wasSuccessful\":true}";

/// A commit of two new tables: its draft, the fifth, names their contents.
pub(crate) const PUT_TWO: &str =
    "POST /api/v2/trees/main/history/commit HTTP/1.1\r\nContent-Length: 355\r\n\r\n{\"commitMeta\":{\"message\":\"one\"},\"operations\":[{\"type\":\"PUT\",\"key\":{\"elements\":[\"a1\"]},\"content\":{\"type\":\"ICEBERG_TABLE\",\"metadataLocation\":\"p\",\"snapshotId\":1,\"schemaId\":0,\"specId\":0,\"sortOrderId\":0}},{\"type\":\"PUT\",\"key\":{\"elements\":[\"a2\"]},\"content\":{\"type\":\"ICEBERG_TABLE\",\"metadataLocation\":\"q\",\"snapshotId\":1,\"schemaId\":0,\"specId\":0,\"sortOrderId\":0}}]}";

/// It is the first change behind the four.
pub(crate) const PUT_TWO_TOLD: &str =
    "HTTP/1.1 200 OK\r\nContent-Type: application/json\r\nCatalogue-Place: 5\r\nContent-Length: 298\r\n\r\n{\"addedContents\":[{\"contentId\":\"00000000-0000-0005-0000-000000000000\",\"key\":{\"elements\":[\"a1\"]}},{\"contentId\":\"00000000-0000-0005-0000-000000000001\",\"key\":{\"elements\":[\"a2\"]}}],\"targetBranch\":{\"hash\":\"2fc691bfaa389a3be6160cb716634d9ec6f9e43580315a3133f9f019ce9f728d\",\"name\":\"main\",\"type\":\"BRANCH\"}}";

/// It comes behind a collection.
pub(crate) const PUT_TWO_TOLD_LATER: &str =
    "HTTP/1.1 200 OK\r\nContent-Type: application/json\r\nCatalogue-Place: 6\r\nContent-Length: 298\r\n\r\n{\"addedContents\":[{\"contentId\":\"00000000-0000-0005-0000-000000000000\",\"key\":{\"elements\":[\"a1\"]}},{\"contentId\":\"00000000-0000-0005-0000-000000000001\",\"key\":{\"elements\":[\"a2\"]}}],\"targetBranch\":{\"hash\":\"2fc691bfaa389a3be6160cb716634d9ec6f9e43580315a3133f9f019ce9f728d\",\"name\":\"main\",\"type\":\"BRANCH\"}}";

/// Two collections, as `COLLECT` is one.
pub(crate) const COLLECT_TWICE: &str =
    "POST /gc/v1/sweep HTTP/1.1\r\nContent-Length: 21\r\n\r\n{\"defaultCutoff\":\"1\"}POST /gc/v1/sweep HTTP/1.1\r\nContent-Length: 21\r\n\r\n{\"defaultCutoff\":\"1\"}";

/// A sweep may hold one name, and had more.
pub(crate) const FULL_OF_ONE: &str =
    "HTTP/1.1 409 Conflict\r\nContent-Type: application/json\r\nCatalogue-Place: 4\r\nContent-Length: 139\r\n\r\n{\"errorCode\":\"LIMIT\",\"errorDetails\":{\"limit\":\"Names\",\"number\":1,\"type\":\"LIMIT\"},\"message\":\"limit reached\",\"reason\":\"Conflict\",\"status\":409}";

/// The second collection finds no other one open.
pub(crate) const FULL_OF_ONE_TWICE: &str =
    "HTTP/1.1 409 Conflict\r\nContent-Type: application/json\r\nCatalogue-Place: 4\r\nContent-Length: 139\r\n\r\n{\"errorCode\":\"LIMIT\",\"errorDetails\":{\"limit\":\"Names\",\"number\":1,\"type\":\"LIMIT\"},\"message\":\"limit reached\",\"reason\":\"Conflict\",\"status\":409}HTTP/1.1 409 Conflict\r\nContent-Type: application/json\r\nCatalogue-Place: 4\r\nContent-Length: 139\r\n\r\n{\"errorCode\":\"LIMIT\",\"errorDetails\":{\"limit\":\"Names\",\"number\":1,\"type\":\"LIMIT\"},\"message\":\"limit reached\",\"reason\":\"Conflict\",\"status\":409}";

/// A sweep may hold two names, and had more.
pub(crate) const FULL_OF_TWO: &str =
    "HTTP/1.1 409 Conflict\r\nContent-Type: application/json\r\nCatalogue-Place: 4\r\nContent-Length: 139\r\n\r\n{\"errorCode\":\"LIMIT\",\"errorDetails\":{\"limit\":\"Names\",\"number\":2,\"type\":\"LIMIT\"},\"message\":\"limit reached\",\"reason\":\"Conflict\",\"status\":409}";

/// What a collection is told that was opened at place 4, and kept one content of four.
pub(crate) const KEPT_1_AT_5: &str =
    "HTTP/1.1 200 OK\r\nContent-Type: application/json\r\nCatalogue-Place: 5\r\nContent-Length: 38\r\n\r\n{\"kept\":1,\"openedPlace\":4,\"removed\":3}";

/// It kept two.
pub(crate) const KEPT_2_AT_5: &str =
    "HTTP/1.1 200 OK\r\nContent-Type: application/json\r\nCatalogue-Place: 5\r\nContent-Length: 38\r\n\r\n{\"kept\":2,\"openedPlace\":4,\"removed\":2}";

/// It kept three.
pub(crate) const KEPT_3_AT_5: &str =
    "HTTP/1.1 200 OK\r\nContent-Type: application/json\r\nCatalogue-Place: 5\r\nContent-Length: 38\r\n\r\n{\"kept\":3,\"openedPlace\":4,\"removed\":1}";

/// It was opened at place 5, and kept one of two.
pub(crate) const KEPT_1_OF_2_AT_6: &str =
    "HTTP/1.1 200 OK\r\nContent-Type: application/json\r\nCatalogue-Place: 6\r\nContent-Length: 38\r\n\r\n{\"kept\":1,\"openedPlace\":5,\"removed\":1}";

/// It kept one of three.
pub(crate) const KEPT_1_OF_3_AT_6: &str =
    "HTTP/1.1 200 OK\r\nContent-Type: application/json\r\nCatalogue-Place: 6\r\nContent-Length: 38\r\n\r\n{\"kept\":1,\"openedPlace\":5,\"removed\":2}";

/// It kept three of six.
pub(crate) const KEPT_3_OF_6_AT_6: &str =
    "HTTP/1.1 200 OK\r\nContent-Type: application/json\r\nCatalogue-Place: 6\r\nContent-Length: 38\r\n\r\n{\"kept\":3,\"openedPlace\":5,\"removed\":3}";

/// It was opened at place 6, and kept all three.
pub(crate) const KEPT_ALL_AT_7: &str =
    "HTTP/1.1 200 OK\r\nContent-Type: application/json\r\nCatalogue-Place: 7\r\nContent-Length: 38\r\n\r\n{\"kept\":3,\"openedPlace\":6,\"removed\":0}";
