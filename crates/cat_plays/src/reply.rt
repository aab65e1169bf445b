//! The heads of replies.

use crate::fault::Fault;
use crate::splits::{first_word, is_digits};
use std::alloc::Global;

/// The status line, without the version, of a status that replies have.
pub fn status_line(code: &str) -> Option<&'static str> {
    match code {
        "200" => Some("200 OK"),
        "400" => Some("400 Bad Request"),
        "404" => Some("404 Not Found"),
        "405" => Some("405 Method Not Allowed"),
        "409" => Some("409 Conflict"),
        "413" => Some("413 Payload Too Large"),
        "415" => Some("415 Unsupported Media Type"),
        "500" => Some("500 Internal Server Error"),
        "503" => Some("503 Service Unavailable"),
        "507" => Some("507 Insufficient Storage"),
        _ => None,
    }
}

/// The line of a place; none where it is `-`.
fn place_line(alloc: Global, place: &str) -> Result<String, Fault> {
    if place == "-" {
        Ok(String::new(alloc))
    } else if is_digits(place) {
        Ok(format!(in alloc; "Catalogue-Place: {place}\r\n")?)
    } else {
        Err(Fault::NoReading)
    }
}

/// The line that ends a session, where `close` says so, and the body.
fn closing(text: &str) -> (&'static str, &str) {
    match first_word(text) {
        ("close", body) => ("Connection: close\r\n", body),
        _ => ("", text),
    }
}

/// The head of a reply that a line says, and its body.
pub fn head<'a>(alloc: Global, status: &str, text: &'a str) -> Result<(String, &'a str), Fault> {
    let (place, rest) = first_word(text);
    let place = place_line(alloc, place)?;
    let (close, body) = closing(rest);
    let length = body.len();
    let head = format!(in alloc;
        "HTTP/1.1 {status}\r\nContent-Type: application/json\r\n{place}Content-Length: {length}\r\n{close}\r\n"
    )?;
    Ok((head, body))
}
