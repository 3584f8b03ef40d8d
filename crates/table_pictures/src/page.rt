//! A page for a browser to look at tables. It loads nothing from outside.
ghost use Rattle.std.specs.Prelude.{◌≡◌, IfOk, string_bytes};
ghost use Rattle.table_pictures.specs.Page.{page};

use super::escape::push_inert;
use super::finding::FINDING;
use super::script::{DRAWING, TREES};
use super::style::STYLE;
use lalrpop_base::memory::OutOfMemory;
use std::alloc::Global;

/// The HTML page for the JSON text of tables. `OutOfMemory` if an allocation fails.
pub fn page_text(alloc: Global, json: &str) -> Result<String, OutOfMemory>
    ensures { IfOk result (λ text. string_bytes text ≡ page json.now) }
{
    let mut text = String::new(alloc);
    text.push_str(HEAD)?;
    text.push_str(STYLE)?;
    text.push_str(BODY)?;
    push_inert(&mut text, json)?;
    text.push_str(SCRIPT)?;
    text.push_str(TREES)?;
    text.push_str(DRAWING)?;
    text.push_str(FINDING)?;
    text.push_str(END)?;
    Ok(text)
}

// The part of a page before the style.
const HEAD: &str = r##"<!DOCTYPE html>
<html lang="en">
<head>
<meta charset="utf-8">
<meta name="viewport" content="width=device-width, initial-scale=1">
<meta http-equiv="Content-Security-Policy"
  content="default-src 'none'; style-src 'unsafe-inline'; script-src 'unsafe-inline'">
<title>States</title>
<style>
"##;

// The part of a page between the style and the data.
const BODY: &str = r##"</style>
</head>
<body>
<header>
<h1 id="title">States</h1>
<p id="summary"></p>
</header>
<form id="find" role="search">
<label for="wanted">Find a symbol, a production, a state or a conflict</label>
<input id="wanted" type="search" autocomplete="off" spellcheck="false"
  aria-describedby="keys" aria-controls="found">
<p id="count" role="status"></p>
<p id="keys"><kbd>/</kbd> to the field, <kbd>Enter</kbd> to the first found, <kbd>j</kbd> and
<kbd>k</kbd> to the next and the one before, <kbd>Alt</kbd> <kbd>←</kbd> back</p>
<ol id="found" tabindex="-1" aria-label="Found" hidden></ol>
</form>
<main>
<noscript><p>This page draws its states by a script, which this browser doesn't run.</p></noscript>
<section id="conflicts" aria-labelledby="conflicts-title" hidden>
<h2 id="conflicts-title">Conflicts</h2>
<p>The dot in a tree marks how far the parser has read. Pale symbols come next.</p>
</section>
<section id="productions" aria-labelledby="productions-title" hidden>
<h2 id="productions-title">Productions</h2>
</section>
<section id="states" aria-labelledby="states-title" hidden>
<h2 id="states-title">States</h2>
</section>
</main>
<script id="data" type="application/json">
"##;

// The part of a page between the data and the script.
const SCRIPT: &str = r##"</script>
<script>
"use strict";
"##;

// The part of a page after the script.
const END: &str = r##"</script>
</body>
</html>
"##;
