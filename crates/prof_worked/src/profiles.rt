//! The profiles of the worked cases, and their threads.
use prof_memory::MemSource;
use prof_read::read_profile;
use prof_tables::{Profile, Thread};
use std::alloc::Global;
use std::rc::Rc;
use std::test::Fail;

pub fn profile_of(alloc: Global, text: &str) -> Result<Profile, Fail> {
    let mut source = MemSource::new(text.as_bytes().to_vec(alloc)?, 65536, Vec::new(alloc));
    let (profile, _, _) = read_profile(alloc, &mut source)?;
    Ok(profile)
}

/// The first thread of a profile.
pub fn thread_of(alloc: Global, text: &str) -> Result<Rc<Thread>, Fail> {
    let profile = profile_of(alloc, text)?;
    let thread = profile.threads.first().ok_or("no thread")?;
    Ok(thread.clone()?)
}

/// Functions 0 A, 1 B, 2 C and 3 D; B and C are of the resource `app`, and D is JavaScript. Six samples, a millisecond
/// apart, on A B C, on A B C B D twice, on A B, on D and on no stack.
pub const P: &str =
    "{\"meta\":{\"preprocessedProfileVersion\":47},\"libs\":[],\"threads\":[{\"name\":\"T\",\"stringArray\":[\"A\",\"B\",\"C\",\"D\",\"app\"],\"resourceTable\":{\"name\":[4],\"length\":1},\"funcTable\":{\"name\":[0,1,2,3],\"isJS\":[false,false,false,true],\"relevantForJS\":[false,false,false,false],\"resource\":[-1,0,0,-1],\"fileName\":[null,null,null,null],\"length\":4},\"frameTable\":{\"func\":[0,1,2,3],\"category\":[null,null,null,null],\"length\":4},\"stackTable\":{\"prefix\":[null,0,1,2,3,null],\"frame\":[0,1,2,1,3,3],\"length\":6},\"samples\":{\"stack\":[2,4,4,1,5,null],\"time\":[0,1,2,3,4,5],\"length\":6}}]}";

/// The tables of the first, shared by two threads.
pub const SHARED: &str =
    "{\"meta\":{\"preprocessedProfileVersion\":47},\"libs\":[],\"shared\":{\"stringArray\":[\"A\",\"B\",\"C\",\"D\",\"app\"],\"resourceTable\":{\"name\":[4],\"length\":1},\"funcTable\":{\"name\":[0,1,2,3],\"isJS\":[false,false,false,true],\"relevantForJS\":[false,false,false,false],\"resource\":[-1,0,0,-1],\"fileName\":[null,null,null,null],\"length\":4},\"frameTable\":{\"func\":[0,1,2,3],\"category\":[null,null,null,null],\"length\":4},\"stackTable\":{\"prefix\":[null,0,1,2,3,null],\"frame\":[0,1,2,1,3,3],\"length\":6}},\"threads\":[{\"name\":\"T\",\"samples\":{\"stack\":[2,4,4,1,5,null],\"time\":[0,1,2,3,4,5],\"length\":6}},{\"name\":\"U\",\"samples\":{\"stack\":[5,1],\"time\":[0,1]}}]}";

/// Functions 0 A, 1 B and 2 C, each of a category of its own; B and C are of the resource `app`. Three samples, on A B
/// and on A C twice.
pub const Q: &str =
    "{\"meta\":{\"preprocessedProfileVersion\":47,\"categories\":[{\"name\":\"Other\",\"color\":\"grey\"},{\"name\":\"Layout\",\"color\":\"blue\"},{\"name\":\"Graphics\",\"color\":\"green\"}]},\"libs\":[],\"threads\":[{\"name\":\"T\",\"stringArray\":[\"A\",\"B\",\"C\",\"app\"],\"resourceTable\":{\"name\":[3],\"length\":1},\"funcTable\":{\"name\":[0,1,2],\"isJS\":[false,false,false],\"relevantForJS\":[false,false,false],\"resource\":[-1,0,0],\"fileName\":[null,null,null],\"length\":3},\"frameTable\":{\"func\":[0,1,2],\"category\":[0,1,2],\"length\":3},\"stackTable\":{\"prefix\":[null,0,0],\"frame\":[0,1,2],\"length\":3},\"samples\":{\"stack\":[1,2,2],\"time\":[0,1,2],\"length\":3}}]}";

/// A JavaScript function of a file, a function of a resource that it calls, and a function of another file.
pub const NAMED: &str =
    "{\"meta\":{\"preprocessedProfileVersion\":47},\"libs\":[],\"threads\":[{\"name\":\"T\",\"stringArray\":[\"Run\",\"lib.JS\",\"wait for it\",\"libXul\",\"poll\",\"src/Main Loop.cpp\"],\"resourceTable\":{\"name\":[3],\"length\":1},\"funcTable\":{\"name\":[0,2,4],\"isJS\":[true,false,false],\"relevantForJS\":[false,false,false],\"resource\":[-1,0,-1],\"fileName\":[1,null,5],\"length\":3},\"frameTable\":{\"func\":[0,1,2],\"category\":[null,null,null],\"length\":3},\"stackTable\":{\"prefix\":[null,0,null],\"frame\":[0,1,2],\"length\":3},\"samples\":{\"stack\":[0,1,1,2,null],\"time\":[0,1,2,3,4],\"length\":5}}]}";

/// Two samples whose weights cancel each other.
pub const BYTES: &str =
    "{\"meta\":{\"preprocessedProfileVersion\":1},\"threads\":[{\"stringArray\":[\"A\"],\"funcTable\":{\"name\":[0]},\"frameTable\":{\"func\":[0]},\"stackTable\":{\"frame\":[0],\"prefix\":[null]},\"samples\":{\"stack\":[0,0],\"time\":[0,1],\"weightType\":\"bytes\",\"weight\":[5,-5]}}]}";

/// Two stack rows of one path, of two categories.
pub const TWICE: &str =
    "{\"meta\":{\"preprocessedProfileVersion\":47,\"categories\":[{\"name\":\"Other\",\"color\":\"grey\"},{\"name\":\"Layout\",\"color\":\"blue\"},{\"name\":\"Paint\",\"color\":\"green\"}]},\"threads\":[{\"stringArray\":[\"A\"],\"funcTable\":{\"name\":[0]},\"frameTable\":{\"func\":[0,0],\"category\":[1,2]},\"stackTable\":{\"frame\":[0,1],\"prefix\":[null,null]},\"samples\":{\"stack\":[0,1,1],\"time\":[0,1,2],\"weightType\":\"samples\",\"weight\":[2,4,-1]}}]}";

/// Two of each: function 0 is `A`, JavaScript and of no resource, and 1 is `B`, of resource 1 and of the file `app`.
pub const SMALL: &str =
    "{\"meta\":{\"preprocessedProfileVersion\":47,\"categories\":[{\"name\":\"Other\",\"color\":\"grey\"},{\"name\":\"Layout\",\"color\":\"blue\"}]},\"threads\":[{\"name\":\"T\",\"stringArray\":[\"A\",\"B\",\"app\"],\"resourceTable\":{\"name\":[0,2]},\"funcTable\":{\"name\":[0,1],\"isJS\":[true,null],\"relevantForJS\":[false,true],\"resource\":[-1,1],\"fileName\":[null,2]},\"frameTable\":{\"func\":[0,1],\"category\":[null,1]},\"stackTable\":{\"frame\":[1,0],\"prefix\":[null,0]},\"samples\":{\"stack\":[1,null],\"time\":[5,7],\"weightType\":\"bytes\",\"weight\":[2,-3]},\"markers\":{\"phase\":[1,0],\"name\":[0,1],\"startTime\":[3,4],\"endTime\":[9,null],\"data\":[{\"a\":\"x\",\"b\":1,\"c\":\"z\",\"a\":\"y\"},5]}}]}";

/// Functions 0 to 6. Of the resource `app` are 1, 2 and 5; 3 is JavaScript, and 6 is relevant for it; 4 and 5 have the
/// name `0x10`, and the others `A`. The stack rows are those of 0 1 2 1 3, from the root on, and of 3.
pub const SEVEN: &str =
    "{\"meta\":{\"preprocessedProfileVersion\":47,\"categories\":[{\"name\":\"Other\",\"color\":\"grey\"},{\"name\":\"Idle\",\"color\":\"transparent\"},{\"name\":\"Layout\",\"color\":\"purple\"},{\"name\":\"Script\",\"color\":\"yellow\"},{\"name\":\"Paint\",\"color\":\"green\"},{\"name\":\"Network\",\"color\":\"lightblue\"},{\"name\":\"Graphics\",\"color\":\"blue\"},{\"name\":\"Collector\",\"color\":\"orange\"}]},\"threads\":[{\"stringArray\":[\"A\",\"0x10\",\"app\"],\"resourceTable\":{\"name\":[2]},\"funcTable\":{\"name\":[0,0,0,0,1,1,0],\"isJS\":[null,null,null,true,null,null,null],\"relevantForJS\":[null,null,null,null,null,null,true],\"resource\":[-1,0,0,-1,-1,0,-1]},\"frameTable\":{\"func\":[0,1,2,3],\"category\":[0,1,2,3]},\"stackTable\":{\"frame\":[0,1,2,1,3,3],\"prefix\":[null,0,1,2,3,null]},\"samples\":{\"stack\":[],\"time\":[]}}]}";

/// A start of `gc`, an instant of `load`, two ends of `gc`, the first by its second place, and a start of `load`. Six
/// samples, a millisecond apart.
pub const MARKED: &str =
    "{\"meta\":{\"preprocessedProfileVersion\":47},\"threads\":[{\"stringArray\":[\"gc\",\"load\",\"gc\"],\"funcTable\":{\"name\":[]},\"frameTable\":{\"func\":[]},\"stackTable\":{\"frame\":[],\"prefix\":[]},\"samples\":{\"stack\":[null,null,null,null,null,null],\"time\":[0,1,2,3,4,5]},\"markers\":{\"phase\":[2,0,3,3,2],\"name\":[0,1,2,0,1],\"startTime\":[1,2,null,null,4.5],\"endTime\":[null,null,3,4,null],\"data\":[null,{\"url\":\"http://a/\"},null,null,null]}}]}";

/// The same without samples.
pub const MARKED_ALONE: &str =
    "{\"meta\":{\"preprocessedProfileVersion\":47},\"threads\":[{\"stringArray\":[\"gc\",\"load\",\"gc\"],\"funcTable\":{\"name\":[]},\"frameTable\":{\"func\":[]},\"stackTable\":{\"frame\":[],\"prefix\":[]},\"samples\":{\"stack\":[],\"time\":[]},\"markers\":{\"phase\":[2,0,3,3,2],\"name\":[0,1,2,0,1],\"startTime\":[1,2,null,null,4.5],\"endTime\":[null,null,3,4,null],\"data\":[null,{\"url\":\"http://a/\"},null,null,null]}}]}";

/// Samples at seventeen moments, in milliseconds.
pub const MOMENTS: &str =
    "{\"meta\":{\"preprocessedProfileVersion\":47},\"threads\":[{\"stringArray\":[\"A\"],\"funcTable\":{\"name\":[0]},\"frameTable\":{\"func\":[0]},\"stackTable\":{\"frame\":[0],\"prefix\":[null]},\"samples\":{\"stack\":[0,0,0,0,0,0,0,0,0,0,0,0,0,0,0,0,0],\"time\":[-1,9,10,25,26,41,45,46,47,48,49,50,60,61,70,71,80]}}]}";
