//! Values written as JSON.
use prof_io::OutFault;
use prof_memory::MemSink;
use prof_writer::Writer;
use std::test::Fail;

#[test]
fn writes_each_kind(rt: HostRuntime) -> Result<(), Fail> {
    let mut out = MemSink::new(rt.alloc(), 256, 5, Vec::new(rt.alloc()))?;
    let mut writer = Writer::new();
    writer.begin_object(&mut out)?;
    writer.name(&mut out, "list")?;
    writer.begin_array(&mut out)?;
    writer.whole(&mut out, -12)?;
    writer.scaled(&mut out, 1_500_000, 6)?;
    writer.truth(&mut out, true)?;
    writer.truth(&mut out, false)?;
    writer.null(&mut out)?;
    writer.end_array(&mut out)?;
    writer.name(&mut out, "text")?;
    writer.string(&mut out, "a\"\\\u{8}\t\n\u{c}\r\u{1}\u{1f} é")?;
    writer.end_object(&mut out)?;
    let text = r#"{"list":[-12,1.5,true,false,null],"text":"a\"\\\b\t\n\f\r\u0001\u001f é"}"#;
    assert_eq!(rt; out.bytes(), text.as_bytes());
    Ok(())
}

#[test]
fn tells_a_fault_in_mid_string(rt: HostRuntime) -> Result<(), Fail> {
    let alloc = rt.alloc();
    let mut out = MemSink::new(alloc, 64, 2, vec![in alloc; 3]?)?;
    let mut writer = Writer::new();
    assert_eq!(rt; writer.string(&mut out, "abcd"), Err(OutFault));
    assert_eq!(rt; out.bytes(), b"\"ab".as_slice());
    Ok(())
}
