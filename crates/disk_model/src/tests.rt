use super::*;
use std::fs;

#[test]
fn file_disk_reads_what_it_wrote(rt: HostRuntime) {
    let path = "file_disk.test";
    let mut file = FileDisk::create(&rt, path);
    assert_eq!(rt; file.write_at(0, b"abcd"), DiskDone::Done);
    assert_eq!(rt; file.sync(), DiskDone::Done);
    let mut file = FileDisk::open(&rt, path);
    let mut into = [0; 3];
    assert_eq!(rt; file.len(), DiskLen::Len(4));
    assert_eq!(rt; file.read_at(2, &mut into), DiskRead::Read(2));
    assert_eq!(rt; into, [b'c', b'd', 0]);
    assert!(rt; fs::remove_file(&rt, path).is_ok());
    let mut missing = FileDisk::open(&rt, path);
    assert_eq!(rt; missing.len(), DiskLen::Failed);
    assert_eq!(rt; missing.faults(), 1);
}
