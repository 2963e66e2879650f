//! The words of a command line, read by fk_conf. A row's words stand behind the name of the program.
use crate::showing::{put_address_if, put_bytes_if, put_number_if, put_pairs};
use fk_base::Bytes;
use fk_row_text::{Answer, Arguments, RowFault};
use fk_words::{Command, SendWords, Tool, read_words};
use std::alloc::Global;

/// Makes the call of this name, where it is one of these.
pub(crate) fn call(
    alloc: Global,
    name: &[u8],
    arguments: &mut Arguments<'_>,
    answer: &mut Answer,
) -> bool {
    let tool = match name {
        b"fwknopd" => Tool::Daemon,
        b"fwknop" => Tool::Client,
        b"fko" => Tool::Fko,
        _ => return false,
    };
    match read_words(alloc, tool, &arguments.words(alloc)) {
        Ok(command) => put_command(&command, answer),
        Err(fault) => answer.name(&fault),
    }
    true
}

/// What the words of the client that are left ask it to send.
pub(crate) fn send_words(alloc: Global, arguments: &mut Arguments<'_>) -> Option<SendWords> {
    match read_words(alloc, Tool::Client, &arguments.words(alloc)) {
        Ok(Command::Send(send)) => Some(send),
        Ok(_) | Err(_) => {
            arguments.refuse(RowFault::Barred);
            None
        }
    }
}

fn put_command(command: &Command, answer: &mut Answer) {
    match command {
        Command::Serve { .. } | Command::Trial { .. } => put_daemon_command(command, answer),
        Command::List => answer.word(b"List"),
        Command::Send(send) => put_send(send, answer),
        Command::KeyGen => answer.word(b"KeyGen"),
        Command::Encode { file, name } => put_with_names(b"Encode", file, name, answer),
        Command::Decode { file, name } => put_with_names(b"Decode", file, name, answer),
        Command::Journal => answer.word(b"Journal"),
        Command::Generate { count } => {
            answer.word(b"Generate");
            answer.number(*count);
        }
        Command::Help => answer.word(b"Help"),
        Command::Version => answer.word(b"Version"),
    }
}

fn put_daemon_command(command: &Command, answer: &mut Answer) {
    match command {
        Command::Serve {
            conf,
            access,
            packets,
            turns,
            verbose,
        } => {
            put_with_names(b"Serve", conf, access, answer);
            answer.word(b"packets");
            put_number_if(*packets, answer);
            answer.word(b"turns");
            put_number_if(*turns, answer);
            answer.word(b"verbose");
            answer.flag(*verbose);
        }
        Command::Trial {
            conf,
            access,
            quiet,
            verbose,
        } => {
            put_with_names(b"Trial", conf, access, answer);
            answer.word(b"quiet");
            answer.flag(*quiet);
            answer.word(b"verbose");
            answer.flag(*verbose);
        }
        _ => {}
    }
}

/// The name of a command and two names behind it.
fn put_with_names(command: &[u8], first: &Bytes, second: &Bytes, answer: &mut Answer) {
    answer.word(command);
    answer.text(first.as_slice());
    answer.text(second.as_slice());
}

fn put_send(send: &SendWords, answer: &mut Answer) {
    put_with_names(b"Send", &send.file, &send.name, answer);
    answer.word(b"access");
    match send.pairs.as_ref() {
        Some(pairs) => put_pairs(pairs.as_slice(), answer),
        None => answer.word(b"none"),
    }
    answer.word(b"allow");
    put_address_if(send.allow, answer);
    answer.word(b"server");
    put_bytes_if(send.server.as_ref(), answer);
    answer.word(b"port");
    put_number_if(send.port.map(u64::from), answer);
    answer.word(b"seconds");
    put_number_if(send.seconds.map(u64::from), answer);
    answer.word(b"print");
    answer.flag(send.print);
}
