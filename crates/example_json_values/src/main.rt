//! `example_json_values` reads JSON texts by the table of a grammar. Of each text it prints the
//! value as `serde_json` prints it, or what is wrong with the text, and where.
#![tactic(auto)]

mod actions;
mod fault;
mod grammar;
mod lexer;
mod messages;
mod numbers;
mod reader;
mod strings;

use grammar::json_table;
use reader::read_json;

// Texts that have a value, and texts that have none, each for another reason.
const TEXTS: [&str; 32] = [
    r#"{"array": [], "object": {}}"#,
    r#"[[1, [2, {"a": [3, {"b": null}]}]], {"c": [[], [{}]]}]"#,
    r#"[0, -12, -0.5, 2.5E-3, 1e2, 6.02e+23, 18446744073709551615, -9223372036854775808]"#,
    r#""\" \\ \/ \b \f \n \r \t \u0041 \u00e9 \u001F""#,
    r#"["\uD83D\ude00", "größer ≥"]"#,
    r#"{"a": 1, "b": 2, "a": 3}"#,
    "\t[ true ,\r\n false,null ]\n ",
    "-1.5e3",
    r#""text""#,
    "null",
    r#"{"a": }"#,
    r#"{"a": 1, }"#,
    r#"{"a" 1}"#,
    r#"{1: "a"}"#,
    "[1,\n 2\n 3]",
    "[1, ]",
    "[1, 2",
    "1 2",
    "",
    "[nul]",
    "{'a': 1}",
    "[+1]",
    "[-]",
    "[012]",
    "[1.]",
    "[1e999]",
    "[\"a\tb\"]",
    r#"["a\x41"]"#,
    r#"["\u12G4"]"#,
    r#"["\uD83D!", "\uD83D\uDE00"]"#,
    r#"["a]"#,
    "[[[[[[[[[[[[[[[[[[[[[[[[[[[[[[[[[[[[[[[[[[[[[[[[[[[[[[[[[[[[[[[[[",
];

fn main(rt: HostRuntime) -> anyhow::Result<()> {
    let alloc = rt.alloc();
    let table = json_table(alloc)?;
    for text in TEXTS {
        match read_json(alloc, &table, text) {
            Ok(value) => println!(rt; "{}", value.to_string(alloc)?)?,
            Err(fault) => println!(rt; "{fault}")?,
        }
    }
    Ok(())
}
