ghost use Rattle.std.specs.Prelude.{◌≡◌, ◌++◌, map, OnOk, IfOk};
ghost use Rattle.chunk_code.specs.Runtime.{runtime_functions};
ghost use Rattle.chunk_code.specs.Texts.{file_text, runtime_text_of};
ghost use Rattle.module_code.specs.Quoted.{with_commas};

use module_code::{SealView, add_comma, add_quoted};
use pack_util::{NoMemory, Text, add, add_number};
use std::alloc::Global;

/// The functions that load chunks and run modules, written once for each page.
#[tactic(auto, unfolding(crate::specs::Runtime::runtime_functions))]
pub fn runtime_functions() -> &'static str
    ensures { result.now ≡ runtime_functions }
{
    r#"(function(G){
if(G.__chunkpack)return;
var P=G.__chunkpack=function(i){
var c=P.c[i];
if(c)return c.exports;
c=P.c[i]={exports:{}};
P.m[i].call(c.exports,c,c.exports,P);
return c.exports;
};
P.c={};P.m={};P.f={};P.w={};P.q={};P.p={};P.u="";
P.x=function(i){var e=P(i);return e&&e.__esModule?e:Object.assign({default:e},e);};
P.g=function(e,n){return e&&e.__esModule?e[n]:n==="default"?e:e[n];};
P.d=function(e,o){
Object.defineProperty(e,"__esModule",{value:true});
Object.keys(o).forEach(function(k){Object.defineProperty(e,k,{enumerable:true,get:o[k]});});
};
P.s=function(e,f){
Object.keys(f).forEach(function(k){if(k!=="default"&&!Object.prototype.hasOwnProperty.call(e,k))Object.defineProperty(e,k,{enumerable:true,get:function(){return f[k];}});});
};
P.b=function(i,o){
var b=Object.create(null);
Object.keys(o).forEach(function(k){var t=o[k];Object.defineProperty(b,k,{get:function(){return t.length>1?P.g(i[t[0]],t[1]):i[t[0]];}});});
return b;
};
P.a=function(k,m){
Object.keys(m).forEach(function(i){if(!P.m[i])P.m[i]=m[i];});
P.w[k]=1;
if(P.q[k])P.q[k]();
};
P.e=function(l){
return Promise.all(l.map(function(k){
if(P.w[k])return 1;
if(!P.p[k])P.p[k]=new Promise(function(y,n){
P.q[k]=y;
var s=document.createElement("script");
s.src=P.u+P.f[k];
s.onerror=function(){delete P.p[k];n(new Error("chunk "+k));};
document.head.appendChild(s);
});
return P.p[k];
}));
};
})(self);
"#
}

fn add_file(text: &mut Vec<u8>, file: &(u32, Text)) -> Result<(), NoMemory>
    ensures { OnOk result (text.new.items ≡ text.old.items ++ file_text file.now) }
{
    add_number(text, file.0 as u64)?;
    add(text, b":")?;
    add_quoted(text, file.1.get())
}

fn add_files(text: &mut Vec<u8>, files: &[(u32, Text)]) -> Result<(), NoMemory>
    ensures { OnOk result (text.new.items ≡ text.old.items ++ with_commas (map file_text files.now)) }
{
    for (place, file) in files.iter().enumerate() {
        add_comma(text, place)?;
        add_file(text, file)?;
    }
    Ok(())
}

/// Adds what a page needs before its first chunk.
pub fn add_runtime(
    text: &mut Vec<u8>,
    public_path: &str,
    files: &[(u32, Text)],
) -> Result<(), NoMemory>
    ensures { OnOk result (text.new.items ≡ text.old.items ++ runtime_text_of public_path.now files.now) }
{
    add(text, runtime_functions().as_bytes())?;
    add(text, b"self.__chunkpack.u=")?;
    add_quoted(text, public_path)?;
    add(text, b";\nself.__chunkpack.f={")?;
    add_files(text, files)?;
    add(text, b"};\n")?;
    Ok(())
}

/// What a page needs before its first chunk: the functions, the public path, and the file of each chunk that is no entry's,
/// by the chunk's id.
pub fn runtime_text(
    alloc: Global,
    view: &SealView<'_>,
    files: &[(u32, Text)],
) -> Result<Vec<u8>, NoMemory>
    ensures { IfOk result (λ text. text.items ≡ runtime_text_of view.now.config.public_path files.now) }
{
    let mut text = Vec::new(alloc);
    add_runtime(&mut text, view.config.public_path.get(), files)?;
    Ok(text)
}
