use crate::folder::Folder;
use crate::same::same;
use program_files::{
    FileNumbers, Output, OutputKind, is_input, is_kept, numbers_of, opened, output_name, word_at,
};
use std::fs;
use std::io::Write;
use std::panic::Expect;
use std::process::Abort;
use sub_base::Words;

#[test]
fn outputs_are_kept_by_their_codes(rt: HostRuntime) {
    for code in 0..9_u8 {
        for has_written in [false, true] {
            same(
                &rt,
                is_kept(OutputKind::Whole, code, has_written),
                code == 0,
            );
            let is_told = code == 0 || code == 4 || code == 5 || code == 8;
            same(&rt, is_kept(OutputKind::Told, code, has_written), is_told);
        }
        same(&rt, is_kept(OutputKind::Tool, code, false), code == 0);
        let has_part = code == 0 || code == 3 || code == 5 || code == 8;
        same(&rt, is_kept(OutputKind::Tool, code, true), has_part);
    }
}

/// An input's name is no output's, the second input's as little as the first's.
#[test]
fn names_of_inputs_are_no_outputs(rt: HostRuntime) {
    let out = Some("out");
    same(&rt, output_name(out, Some("a"), Some("b")), out);
    same(&rt, output_name(out, None, None), out);
    same(&rt, output_name(out, Some("out"), Some("b")), None);
    same(&rt, output_name(out, Some("a"), Some("out")), None);
    same(&rt, output_name(None, Some("a"), None), None);
}

#[test]
fn files_are_known_by_both_numbers(rt: HostRuntime) {
    let numbers = |device, inode| FileNumbers { device, inode };
    let file = numbers(1, 2);
    assert!(rt; is_input(file, Some(numbers(1, 2)), None));
    assert!(rt; is_input(file, Some(numbers(1, 3)), Some(numbers(1, 2))));
    assert!(rt; !is_input(file, Some(numbers(1, 3)), Some(numbers(2, 2))));
    assert!(rt; !is_input(file, None, None));
}

#[test]
fn words_are_found_by_their_places(rt: HostRuntime) {
    let mut words = Words::make(rt.alloc());
    words.push("list").expect(&rt, "memory");
    words.push("256").expect(&rt, "memory");
    same(&rt, word_at(&words, Some(0)), Some("list"));
    same(&rt, word_at(&words, Some(1)), Some("256"));
    same(&rt, word_at(&words, Some(2)), None);
    same(&rt, word_at(&words, None), None);
}

/// What was there stays until the output is finished, and after that it is the whole output.
#[test]
fn an_output_takes_the_place_of_what_was_there(rt: HostRuntime) {
    let folder = Folder::make(&rt, &rt, "place");
    folder.write("out", b"old");
    let link = folder.link("link", "out");
    let mut output = Output::whole(&rt, Some(link.as_str()), None, None);
    output.write_all(b"new ").expect(&rt, "the output");
    output.write_all(b"text").expect(&rt, "the output");
    assert!(rt; output.has_written());
    assert!(rt; !output.is_standard_output());
    same(&rt, folder.text_of("out").as_str(), "old");
    output.finish().expect(&rt, "the output");
    same(&rt, folder.text_of("out").as_str(), "new text");
    assert!(rt; is_link(&rt, &rt, link.as_str()));
    folder.remove();
}

fn is_link<R: Abort>(files: &HostRuntime, rt: &R, path: &str) -> bool {
    fs::symlink_metadata(files, path)
        .expect(rt, "a link")
        .is_symlink()
}

/// An output that is finished without a byte is empty.
#[test]
fn an_output_without_a_byte_is_empty(rt: HostRuntime) {
    let folder = Folder::make(&rt, &rt, "empty");
    folder.write("out", b"old");
    let out = folder.path_of("out");
    let mut output = Output::whole(&rt, Some(out.as_str()), None, None);
    assert!(rt; !output.has_written());
    output.finish().expect(&rt, "the output");
    same(&rt, folder.text_of("out").as_str(), "");
    folder.remove();
}

/// While an output is written, its bytes stand in a new file in the folder of what they are to
/// replace; its name begins with a dot, and is gone once the output is finished.
#[test]
fn a_new_file_stands_beside_the_output(rt: HostRuntime) {
    let folder = Folder::make(&rt, &rt, "beside");
    let out = folder.path_of("out.ts");
    let mut output = Output::whole(&rt, Some(out.as_str()), None, None);
    output.write_all(b"new").expect(&rt, "the output");
    assert!(rt; has_new_file(&rt, &rt, folder.path()));
    output.finish().expect(&rt, "the output");
    assert!(rt; !has_new_file(&rt, &rt, folder.path()));
    folder.remove();
}

/// Whether a folder has a file that an output is written to.
fn has_new_file<R: Abort>(files: &HostRuntime, rt: &R, folder: &str) -> bool {
    for entry in fs::read_dir(files, folder).expect(rt, "the folder") {
        let entry = entry.expect(rt, "a file");
        if entry.file_name().starts_with(".dvbsub-") {
            return true;
        }
    }
    false
}

/// A symbolic link leads on from the folder that it stands in, and from the root where it begins
/// with a slash.
#[test]
fn links_lead_from_the_folder_that_they_stand_in(rt: HostRuntime) {
    let folder = Folder::make(&rt, &rt, "links");
    let out = folder.path_of("out");
    let below = folder.path_of("below");
    fs::create_dir(&rt, below.as_str()).expect(&rt, "a new folder");
    let cases = [
        ("below/up", "../out"),
        ("below/next", "up"),
        ("below/root", out.as_str()),
    ];
    for (name, target) in cases {
        let link = folder.link(name, target);
        let mut output = Output::whole(&rt, Some(link.as_str()), None, None);
        output.write_all(name.as_bytes()).expect(&rt, "the output");
        output.finish().expect(&rt, "the output");
        same(&rt, folder.text_of("out").as_str(), name);
    }
    folder.remove();
}

/// An output that is given up leaves what was there, and no new file.
#[test]
fn an_output_that_is_given_up_leaves_nothing(rt: HostRuntime) {
    let folder = Folder::make(&rt, &rt, "nothing");
    let out = folder.path_of("out");
    let mut output = Output::whole(&rt, Some(out.as_str()), None, None);
    output.write_all(b"new").expect(&rt, "the output");
    output.abandon();
    assert!(rt; !fs::exists(&rt, out.as_str()).expect(&rt, "the folder"));
    // The folder is empty, or it could not be removed so.
    fs::remove_dir(&rt, folder.path()).expect(&rt, "an empty folder");
}

/// An input is no output under another name of it.
#[test]
fn an_input_is_not_written(rt: HostRuntime) {
    let folder = Folder::make(&rt, &rt, "input");
    folder.write("input", b"text");
    let input = folder.path_of("input");
    let link = folder.link("link", "input");
    let hard = folder.path_of("hard");
    fs::hard_link(&rt, input.as_str(), hard.as_str()).expect(&rt, "a new link");
    for name in [input.as_str(), link.as_str(), hard.as_str()] {
        is_not_written(&rt, &rt, input.as_str(), name);
    }
    same(&rt, folder.text_of("input").as_str(), "text");
    folder.remove();
}

/// Whether it is the first input or the second, an output of that name is refused.
fn is_not_written<R: Abort>(files: &HostRuntime, rt: &R, input: &str, name: &str) {
    let numbers = numbers_of(&opened(files, Some(input)));
    assert!(rt; numbers.is_some());
    for (first, second) in [(numbers, None), (None, numbers)] {
        let mut output = Output::whole(files, Some(name), first, second);
        assert!(rt; output.write(b"x").is_err());
        assert!(rt; output.finish().is_err());
        let mut output = Output::as_it_comes(files, Some(name), first, second);
        assert!(rt; output.write(b"x").is_err());
    }
}

/// An output that is written as it comes is there before it is finished.
#[test]
fn an_output_is_written_as_it_comes(rt: HostRuntime) {
    let folder = Folder::make(&rt, &rt, "comes");
    let out = folder.path_of("out");
    let mut output = Output::as_it_comes(&rt, Some(out.as_str()), None, None);
    output.write_all(b"new").expect(&rt, "the output");
    same(&rt, folder.text_of("out").as_str(), "new");
    output.finish().expect(&rt, "the output");
    same(&rt, folder.text_of("out").as_str(), "new");
    folder.remove();
}
