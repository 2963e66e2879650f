//! The calls of fk_lines: the lines of a configuration file.
use fk_base::FILE_LIMIT;
use fk_lines::{Line, LineFault, Lines, trim_front, without_last};
use fk_row_text::{Answer, Arguments, RowFault};

/// Makes the call of this name, where it is one of these.
pub(crate) fn call(name: &[u8], arguments: &mut Arguments<'_>, answer: &mut Answer) -> bool {
    match name {
        b"lines" => call_lines(arguments, answer),
        b"trim_front" => answer.text(trim_front(arguments.text())),
        b"without_last" => call_without_last(arguments, answer),
        _ => return false,
    }
    true
}

/// `lines TEXT`: of each line its number, its name and its value, or its number and its fault.
fn call_lines(arguments: &mut Arguments<'_>, answer: &mut Answer) {
    let text = arguments.text();
    if text.len() > FILE_LIMIT {
        arguments.refuse(RowFault::Barred);
        return;
    }
    let mut lines = Lines::new(text);
    for _ in 0..=text.len() {
        let Some(line) = lines.next() else {
            break;
        };
        put_line(line, lines.number(), answer);
    }
}

fn put_line(line: Result<Line<'_>, LineFault>, number: u32, answer: &mut Answer) {
    match line {
        Ok(line) => {
            answer.number(u64::from(line.number));
            answer.text(line.name);
            answer.text(line.value);
        }
        Err(fault) => {
            answer.number(u64::from(number));
            answer.name(&fault);
        }
    }
}

/// `without_last TEXT BYTE`, the byte as a text of one.
fn call_without_last(arguments: &mut Arguments<'_>, answer: &mut Answer) {
    let text = arguments.text();
    match arguments.text() {
        [byte] if *byte > 0 => answer.text(without_last(text, *byte)),
        _ => arguments.refuse(RowFault::Barred),
    }
}
