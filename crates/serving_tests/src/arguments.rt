//! Arguments and results of every type, by calls that give back what they take.

use crate::echo::{answers, between};
use std::alloc::{AllocError, Global};
use std::test::Fail;
use test_support::hold_table;

/// The creation of `x`, and a call of it, with this method and these arguments.
fn lines_of(alloc: Global, method: &str, args: &str) -> Result<String, AllocError> {
    format!(in alloc;
        "{{\"id\":\"a\",\"class\":\"Thing\",\"new\":[\"x\"]}}\n{{\"id\":\"b\",\"class\":\"Thing\",\"key\":\"x\",\"method\":\"{method}\",\"args\":{args}}}\n"
    )
}

/// The result of the call, or the words of its refusal.
fn result_of(answers: &str) -> Option<&str> {
    let second = answers.strip_prefix("{\"id\":\"a\",\"ok\":\"x\",\"seq\":1}\n")?;
    match between(second, "{\"id\":\"b\",\"ok\":", ",\"seq\":2}\n") {
        Some(result) => Some(result),
        None => between(second, "{\"bad\":\"", "\",\"line\":2}\n"),
    }
}

/// What is answered to a method with its arguments.
fn called(alloc: Global, text: &str) -> Result<String, Fail> {
    let (method, args) = text.split_once(" ").unwrap_or(("", ""));
    let lines = lines_of(alloc, method, args)?;
    let answers = answers(alloc, lines.as_bytes())?;
    Ok(String::from_str(
        alloc,
        result_of(answers.as_str()).unwrap_or("another answer"),
    )?)
}

const INTS: &str = r#"
    a number              | number [7]                                           | 7
    a text                | number ["7"]                                         | 7
    zeros in front        | number ["-007"]                                      | -7
    minus zero as a text  | number ["-0"]                                        | 0
    minus zero            | number [-0]                                          | argument type
    a point               | number [7.0]                                         | argument type
    an exponent           | number [7e0]                                         | argument type
    2^63-1                | number [9223372036854775807]                         | 9223372036854775807
    2^63                  | number [9223372036854775808]                         | "9223372036854775808"
    2^64-1                | number [18446744073709551615]                        | "18446744073709551615"
    2^64                  | number [18446744073709551616]                        | argument type
    2^64 as a text        | number ["18446744073709551616"]                      | "18446744073709551616"
    -2^63                 | number [-9223372036854775808]                        | -9223372036854775808
    -2^63-1               | number [-9223372036854775809]                        | argument type
    -2^63-1 as a text     | number ["-9223372036854775809"]                      | "-9223372036854775809"
    the greatest          | number ["170141183460469231731687303715884105727"]  | "170141183460469231731687303715884105727"
    one above             | number ["170141183460469231731687303715884105728"]  | argument type
    the least             | number ["-170141183460469231731687303715884105728"] | "-170141183460469231731687303715884105728"
    one below             | number ["-170141183460469231731687303715884105729"] | argument type
    64 zeros              | number ["0000000000000000000000000000000000000000000000000000000000000000"]  | 0
    65 zeros              | number ["00000000000000000000000000000000000000000000000000000000000000000"] | argument type
    64 zeros and a minus  | number ["-0000000000000000000000000000000000000000000000000000000000000000"] | 0
    a plus                | number ["+1"]                                        | argument type
    a blank               | number [" 1"]                                        | argument type
    no digit              | number [""]                                          | argument type
    a minus alone         | number ["-"]                                         | argument type
    two minuses           | number ["--1"]                                       | argument type
    digits of a language  | number ["٣"]                                         | argument type
    true                  | number [true]                                        | argument type
    null                  | number [null]                                        | argument type
    a list                | number [[1]]                                         | argument type
"#;

#[test]
fn ints_are_numbers_of_64_bits_or_texts(rt: HostRuntime) -> Result<(), Fail> {
    hold_table(rt.alloc(), INTS, 31, called)
}

const TYPES: &str = r#"
    true                     | truth [true]                     | true
    false                    | truth [false]                    | false
    zero for a bool          | truth [0]                        | argument type
    a text for a bool        | truth ["true"]                   | argument type
    an empty text            | text [""]                        | ""
    a text with escapes      | text ["\"\\\/\n\u001f\u00e9"]    | "\"\\/\n\u001fé"
    a number for a text      | text [1]                         | argument type
    none                     | none [null]                      | null
    false for none           | none [false]                     | argument type
    an empty list            | numbers [[]]                     | []
    ints of both forms       | numbers [[1,"2",-3]]             | [1,2,-3]
    an element of another    | numbers [[1,true]]               | argument type
    null for a list          | numbers [null]                   | argument type
    an object for a list     | numbers [{}]                     | argument type
    lists in a list          | nested [[[null,"a"],[]]]         | [[null,"a"],[]]
    a list that is too flat  | nested [["a"]]                   | argument type
    nothing                  | maybe [null]                     | null
    something                | maybe ["5"]                      | 5
    a list for an optional   | maybe [[]]                       | argument type
    no list                  | perhaps [null]                   | null
    a list of entities       | perhaps [["y","x"]]              | ["y","x"]
    null among entities      | perhaps [["y",null]]             | argument type
    an entity                | other ["y"]                      | "y"
    an entity without a name | other [""]                       | ""
    an object for an entity  | other [{"class":"Thing"}]        | argument type
    null for an entity       | other [null]                     | argument type
    two arguments            | two [1,true]                     | true
    the second is wrong      | two [1,1]                        | argument type
    one is missing           | two [1]                          | argument count
    one is left over         | two [1,true,null]                | argument count
    too many and wrong       | two [true,1,1]                   | argument count
"#;

#[test]
fn values_have_the_form_of_their_type(rt: HostRuntime) -> Result<(), Fail> {
    hold_table(rt.alloc(), TYPES, 31, called)
}
