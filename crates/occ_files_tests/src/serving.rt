//! Tests: a client of the server opens two files, makes a race in one, asks what it is, and mends it.
use super::finding::List;
use occ_editor_messages::{Flow, LanguageServer};
use std::alloc::Global;
use std::test::Fail;

/// What is on disk.
const FILES: [(&str, &str); 2] = [
    ("/p/a.occ", "#USE \"b\"\nPROC a ()\n  b ()\n:\n"),
    ("/p/b.occ", "PROC b ()\n  SKIP\n:\n"),
];

/// Messages of a client, and what is in that which is sent in return.
const MESSAGES: [(&str, &str); 12] = [
    (
        "{\"id\":1,\"method\":\"textDocument/hover\"}",
        "{\"error\":{\"code\":-32002,",
    ),
    (
        "{\"id\":2,\"method\":\"initialize\",\"params\":{}}",
        "\"textDocumentSync\":{\"change\":2,",
    ),
    ("{\"id\":", "\"code\":-32700,"),
    ("{\"id\":3,\"method\":\"no/such\"}", "\"code\":-32601,"),
    (
        "{\"method\":\"textDocument/didOpen\",\"params\":{\"textDocument\":{\"uri\":\"file:///p/a.occ\",\"text\":\"#USE \\\"b\\\"\\nPROC a ()\\n  INT x:\\n  PAR\\n    x := 1\\n    b ()\\n:\\n\"}}}",
        "{\"diagnostics\":[],\"uri\":\"file:///p/a.occ\"}",
    ),
    (
        "{\"method\":\"textDocument/didChange\",\"params\":{\"textDocument\":{\"uri\":\"file:///p/a.occ\"},\"contentChanges\":[{\"range\":{\"start\":{\"line\":5,\"character\":4},\"end\":{\"line\":5,\"character\":99}},\"text\":\"x := 2\"}]}}",
        "\"code\":\"U1\",\"message\":\"`x` is changed in two components of this PAR\",\"range\":{\"end\":{\"character\":5,\"line\":3},\"start\":{\"character\":0,\"line\":3}},\"relatedInformation\":[{\"location\":{\"range\":{\"end\":{\"character\":10,\"line\":4}",
    ),
    (
        "{\"id\":4,\"method\":\"textDocument/hover\",\"params\":{\"textDocument\":{\"uri\":\"file:///p/a.occ\"},\"position\":{\"line\":3,\"character\":0}}}",
        "\"value\":\"U1: ",
    ),
    (
        "{\"method\":\"textDocument/didChange\",\"params\":{\"textDocument\":{\"uri\":\"file:///p/a.occ\"},\"contentChanges\":[{\"range\":{\"start\":{\"line\":5,\"character\":4},\"end\":{\"line\":5,\"character\":5}},\"text\":\"c () -- \"}]}}",
        "\"code\":\"N1\"",
    ),
    (
        "{\"method\":\"textDocument/didOpen\",\"params\":{\"textDocument\":{\"uri\":\"file:///p/b.occ\",\"text\":\"PROC c ()\\n  SKIP\\n:\\n\"}}}",
        "{\"diagnostics\":[],\"uri\":\"file:///p/a.occ\"}",
    ),
    (
        "{\"method\":\"textDocument/didClose\",\"params\":{\"textDocument\":{\"uri\":\"file:///p/b.occ\"}}}",
        "\"code\":\"N1\"",
    ),
    (
        "{\"method\":\"textDocument/didChange\"}",
        "\"code\":-32600,",
    ),
    (
        "{\"id\":\"end\",\"method\":\"shutdown\"}",
        "{\"id\":\"end\",\"jsonrpc\":\"2.0\",\"result\":null}",
    ),
];

/// Whether these bytes are in others.
fn has(bytes: &[u8], part: &[u8]) -> bool {
    !part.is_empty() && bytes.windows(part.len()).any(|there| there == part)
}

/// A server over the files.
fn server<'a>(alloc: Global) -> LanguageServer<List<'a>> {
    LanguageServer::new(alloc, List(FILES.as_slice()), Vec::new(alloc))
}

#[test]
fn a_client_makes_a_race_and_mends_it(rt: HostRuntime) -> Result<(), Fail> {
    let mut server = server(rt.alloc());
    for (message, want) in MESSAGES {
        server.clear();
        assert!(rt;
            matches!(&server.take(message.as_bytes()), Ok(Flow::Goes)),
            "{message}"
        );
        assert!(rt; server.publish().is_ok());
        assert!(rt; has(server.sent(), want.as_bytes()), "{message}");
    }
    let end = server.take(b"{\"method\":\"exit\"}");
    assert!(rt; matches!(&end, Ok(Flow::Ends(0))));
    Ok(())
}
