//! Tests of `io_edge`.
ghost use Rattle.std.specs.Prelude.{◌<◌, ◌≤◌, length};
ghost use Rattle.io_edge.specs.Limits.{max_epsilon};

use io_edge::{
    Failed, FolderShelf, MemNoise, MemShelf, MemSink, MemSource, Noise, Shelf, ShelfFault, Sink,
    Source, StdSink, StdSource, SureNoise, SureSink, SureSource, is_path, read_up_to,
};
use noise_lines::{FileNoise, FileSource, LineNoise};
use std::test::Fail;

// Each call through its trait.
fn read<S: Source>(source: &mut S, buf: &mut [u8]) -> Result<usize, Failed>
    requires { 0 < length buf.old }
{
    source.read(buf)
}

fn write<S: Sink>(sink: &mut S, piece: &[u8]) -> Result<usize, Failed>
    requires { 0 < length piece.now }
{
    sink.write(piece)
}

fn draw<N: Noise>(noise: &mut N, eps: u64) -> Result<i64, Failed>
    requires low { 1 ≤ eps }
    requires high { eps ≤ max_epsilon }
{
    noise.draw(eps)
}

// None where the bytes are no path.
fn fetch<S: Shelf>(
    shelf: &mut S,
    path: &str,
    max: u8,
    into: &mut Vec<u8>,
) -> Option<Result<(), ShelfFault>> {
    if is_path(path.as_bytes()) {
        Some(shelf.fetch(path.as_bytes(), usize::from(max), into))
    } else {
        None
    }
}

#[test]
fn source_gives_pieces_and_fails_at_the_listed_call(rt: HostRuntime) -> Result<(), Fail> {
    let bytes = b"abc".to_vec(rt.alloc())?;
    let mut source = MemSource::new(bytes, 2, [1].to_vec(rt.alloc())?);
    let mut buf = [0; 4];
    let rows = [
        (Ok(2), [97, 98, 0, 0]),
        (Err(Failed), [97, 98, 0, 0]),
        (Ok(1), [99, 98, 0, 0]),
        (Ok(0), [99, 98, 0, 0]),
    ];
    for (count, front) in rows {
        assert_eq!(rt; read(&mut source, &mut buf), count);
        assert_eq!(rt; buf, front);
    }
    Ok(())
}

#[test]
fn sink_takes_pieces_and_fails_once_full(rt: HostRuntime) -> Result<(), Fail> {
    let mut sink = MemSink::new(rt.alloc(), 3, 2, Vec::new(rt.alloc()))?;
    let rows = [(b"abc", Ok(2)), (b"cde", Ok(1)), (b"def", Err(Failed))];
    for (piece, count) in rows {
        assert_eq!(rt; write(&mut sink, piece), count);
    }
    assert_eq!(rt; sink.bytes(), b"abc".as_slice());
    Ok(())
}

#[test]
fn noise_gives_its_numbers_and_fails_after_the_last(rt: HostRuntime) -> Result<(), Fail> {
    let numbers = [5, -7, 0].to_vec(rt.alloc())?;
    let mut noise = MemNoise::new(rt.alloc(), numbers, [1].to_vec(rt.alloc())?)?;
    let rows = [Ok(5), Err(Failed), Ok(-7), Ok(0), Err(Failed), Err(Failed)];
    for number in rows {
        assert_eq!(rt; draw(&mut noise, 1), number);
    }
    Ok(())
}

#[test]
fn each_draw_takes_a_line(rt: HostRuntime) -> Result<(), Fail> {
    let rows = [
        ("5\r\n", Ok(5)),
        ("-7\n", Ok(-7)),
        ("\n", Err(Failed)),
        ("+07\n", Ok(7)),
        (" 1\n", Err(Failed)),
        ("1.0\n", Err(Failed)),
        ("\r1\n", Err(Failed)),
        ("9223372036854775807\n", Ok(i64::MAX)),
        ("9223372036854775808\n", Err(Failed)),
        ("-9223372036854775808\r\n", Ok(i64::MIN)),
        ("00000000000000000001\n", Err(Failed)),
        (
            "12345678901234567890123456789012345678901234567890\n",
            Err(Failed),
        ),
        ("Å\n", Err(Failed)),
        ("\r\n", Err(Failed)),
        ("3\r", Ok(3)),
        ("", Err(Failed)),
        ("", Err(Failed)),
    ];
    let mut bytes = Vec::new(rt.alloc());
    for (line, _) in rows {
        bytes.extend_from_slice(line.as_bytes())?;
    }
    let source = MemSource::new(bytes, 7, Vec::new(rt.alloc()));
    let mut noise = LineNoise::new(rt.alloc(), source);
    for (line, number) in rows {
        assert_eq!(rt; draw(&mut noise, 1_000_000_000), number, "{line}");
    }
    Ok(())
}

#[test]
fn a_line_goes_on_after_a_fault_of_its_source(rt: HostRuntime) -> Result<(), Fail> {
    let bytes = b"-123\n4\n".to_vec(rt.alloc())?;
    let source = MemSource::new(bytes, 1, [2, 3].to_vec(rt.alloc())?);
    let mut noise = LineNoise::new(rt.alloc(), source);
    for number in [Err(Failed), Err(Failed), Ok(-123), Ok(4), Err(Failed)] {
        assert_eq!(rt; draw(&mut noise, 1), number);
    }
    Ok(())
}

#[test]
fn a_file_that_is_missing_is_a_fault_at_each_draw(rt: HostRuntime) {
    let source = FileSource::new(&rt, "no.such.noise");
    let mut noise: FileNoise<'_> = LineNoise::new(rt.alloc(), source);
    for _ in 0..2 {
        assert_eq!(rt; draw(&mut noise, 1), Err(Failed));
    }
}

#[test]
fn shelf_gives_what_was_put_last_at_a_path(rt: HostRuntime) -> Result<(), Fail> {
    let mut shelf = MemShelf::new(rt.alloc());
    for (path, text) in [("a", "old"), ("b/c.csv", "1,2\n"), ("a", "new")] {
        shelf.put(path.as_bytes(), text.as_bytes().to_vec(rt.alloc())?)?;
    }
    shelf.fail_at(5)?;
    let rows = [
        ("a", 3, Some(Ok(())), "new"),
        ("b/c.csv", 4, Some(Ok(())), "1,2\n"),
        ("b/c.csv", 3, Some(Err(ShelfFault::Long)), "1,2\n"),
        ("b/c.csv", 1, Some(Err(ShelfFault::Long)), "1,"),
        ("b", 9, Some(Err(ShelfFault::Missing)), ""),
        ("a", 9, Some(Err(ShelfFault::Failed)), ""),
        ("a", 9, Some(Ok(())), "new"),
        ("/a", 9, None, "new"),
    ];
    let mut into = Vec::new(rt.alloc());
    for (path, max, answer, left) in rows {
        assert_eq!(rt; fetch(&mut shelf, path, max, &mut into), answer, "{path}");
        assert_eq!(rt; into.as_slice(), left.as_bytes(), "{path}");
    }
    Ok(())
}

#[test]
fn folder_misses_a_file(rt: HostRuntime) -> Result<(), Fail> {
    let mut shelf = FolderShelf::new(&rt);
    let mut into = b"old".to_vec(rt.alloc())?;
    let answer = fetch(&mut shelf, "no.such.folder/rows.csv", 10, &mut into);
    assert_eq!(rt; answer, Some(Err(ShelfFault::Missing)));
    assert_eq!(rt; into.len(), 0);
    Ok(())
}

#[test]
fn reader_is_read_to_one_byte_more(rt: HostRuntime) -> Result<(), Fail> {
    let rows = [
        ("", 0u8, Ok(()), ""),
        ("abc", 3, Ok(()), "abc"),
        ("abcd", 3, Err(ShelfFault::Long), "abcd"),
        ("abcdef", 3, Err(ShelfFault::Long), "abcd"),
    ];
    for (text, max, answer, left) in rows {
        let mut into = Vec::new(rt.alloc());
        assert_eq!(rt;
            read_up_to(text.as_bytes(), usize::from(max), &mut into),
            answer,
            "{text}"
        );
        assert_eq!(rt; into.as_slice(), left.as_bytes(), "{text}");
    }
    Ok(())
}

#[test]
fn paths_are_parts_between_slashes(rt: HostRuntime) {
    let rows = [
        ("a", true),
        ("0", true),
        ("-", true),
        ("rows.csv", true),
        ("data/rows-1.csv", true),
        ("Data/2024/q_1/rows.csv", true),
        ("a.", true),
        ("a..b/c", true),
        ("", false),
        ("/", false),
        ("/a", false),
        ("a/", false),
        ("a//b", false),
        (".", false),
        ("..", false),
        (".a", false),
        ("a/.b", false),
        ("a/../b", false),
        ("a b", false),
        ("a\\b", false),
        ("a\n", false),
        ("a:b", false),
        ("\u{e9}", false),
    ];
    for (text, expected) in rows {
        assert_eq!(rt; is_path(text.as_bytes()), expected, "{text}");
    }
    let long = [b'a'; 201];
    assert!(rt; is_path(&long[..200]));
    assert!(rt; !is_path(&long));
}

#[test]
fn sure_source_gives_what_fits(rt: HostRuntime) -> Result<(), Fail> {
    let mut source = SureSource::new(b"abc".to_vec(rt.alloc())?);
    let mut buf = [0; 2];
    for (count, front) in [(2, [97, 98]), (1, [99, 98]), (0, [99, 98])] {
        assert_eq!(rt; read(&mut source, &mut buf), Ok(count));
        assert_eq!(rt; buf, front);
    }
    Ok(())
}

#[test]
fn sure_sink_and_noise_never_fail(rt: HostRuntime) {
    assert_eq!(rt; write(&mut SureSink::new(), b"abc"), Ok(3));
    assert_eq!(rt; draw(&mut SureNoise::new(), 1), Ok(0));
}

#[test]
fn standard_streams_are_adapted(rt: HostRuntime) {
    let mut buf = [0; 2];
    assert!(rt; read(&mut StdSource::new(rt.stdin()), &mut buf).is_ok());
    assert_eq!(rt; write(&mut StdSink::new(rt.stdout()), b"\n"), Ok(1));
}
